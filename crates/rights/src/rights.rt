// When the bits and the labels grant a right.
ghost use Rattle.std.specs.Prelude.{◌≡◌};
ghost use Rattle.tables.specs.Tables.{file_in};
ghost use Rattle.rules.specs.Rights.{stands, covers, rights_in, bits_grant, asks_write, executable, bits_execute, owns, label_grants};
ghost use Rattle.rules.specs.Rom.{files_in};
ghost use Rattle.rules.specs.Walk.{bits_allow, label_allows};
ghost use Rattle.rules.specs.DecidePaths.{bits_allow_execute};
ghost use Rattle.rights.specs.Permissions.{permitted, permitted_to_name};

use rules::ids::Slot;
use rules::refusal::Refusal;
use rules::request::Subject;
use rules::rights::{Bits, Rights};
use tables::ids::is_slot;
use tables::lent::Tables;

#[tactic(auto, unfolding(rules::specs::Rights::stands, rules::specs::Choice::implies))]
fn stands_in(held: u32, want: u32) -> bool
    ensures { result ≡ stands held want }
{
    want % 2 == 0 || held % 2 == 1
}

#[tactic(auto, unfolding(rules::specs::Rights::covers, rules::specs::Choice::every))]
fn covers_all(held: Rights, want: Rights) -> bool
    ensures { result ≡ covers held want }
{
    stands_in(held.0 / 4, want.0 / 4)
        && stands_in(held.0 / 2, want.0 / 2)
        && stands_in(held.0, want.0)
}

// What the bits give the subject: to the owner, else to the group, else to others. Only the lowest three digits count.
#[tactic(auto, unfolding(rules::specs::Rights::rights_in))]
fn rights_in(who: Subject, owner: u32, group: u32, bits: Bits) -> Rights
    ensures { result ≡ rights_in who owner group bits }
{
    if who.user == owner {
        Rights(bits.0 / 64)
    } else if who.group == group {
        Rights(bits.0 / 8)
    } else {
        Rights(bits.0)
    }
}

#[tactic(auto, unfolding(rules::specs::Rights::bits_grant, rules::specs::Choice::some))]
fn bits_grant(who: Subject, owner: u32, group: u32, bits: Bits, want: Rights) -> bool
    ensures { result ≡ bits_grant who owner group bits want }
{
    who.user == 0 || covers_all(rights_in(who, owner, group, bits), want)
}

// One of the three execute bits is set.
#[tactic(auto, unfolding(rules::specs::Rights::executable, rules::specs::Choice::some))]
fn executable(bits: Bits) -> bool
    ensures { result ≡ executable bits }
{
    stands_in(bits.0 / 64, 1) || stands_in(bits.0 / 8, 1) || stands_in(bits.0, 1)
}

#[tactic(auto, unfolding(rules::specs::Rights::bits_execute))]
fn bits_execute(who: Subject, owner: u32, group: u32, bits: Bits) -> bool
    ensures { result ≡ bits_execute who owner group bits }
{
    if who.user == 0 {
        executable(bits)
    } else {
        covers_all(rights_in(who, owner, group, bits), Rights::EXECUTE)
    }
}

// The subject is user 0 or the owner.
#[tactic(auto, unfolding(rules::specs::Rights::owns, rules::specs::Choice::some))]
pub fn is_owner(who: Subject, owner: u32) -> bool
    ensures { result ≡ owns who owner }
{
    who.user == 0 || who.user == owner
}

#[tactic(auto, unfolding(rules::specs::Rights::label_grants))]
fn label_grants(policy: &[u8], who: Subject, label: u32, want: Rights) -> bool
    ensures { result ≡ label_grants policy.now who label want }
{
    covers_all(tables::policy::rights(policy, who.label, label), want)
}

#[tactic(auto, unfolding(rules::specs::Rights::asks_write))]
fn asks_write(want: Rights) -> bool
    ensures { result ≡ asks_write want }
{
    want.0 / 2 % 2 == 1
}

// The bits of slot s grant the rights. What is written is of the store.
#[tactic(auto, unfolding(rules::specs::Walk::bits_allow, rules::specs::Choice::every, rules::specs::Choice::implies))]
pub fn bits_allow(files: &[u32], who: Subject, s: Slot, want: Rights) -> bool
    ensures { result ≡ bits_allow (files_in files.now) who s want }
{
    bits_grant(
        who,
        rom::seen::owner(files, s),
        rom::seen::group(files, s),
        rom::seen::bits(files, s),
        want,
    ) && (!asks_write(want) || is_slot(s))
}

// The bits of slot s let it be executed: by user 0 only if someone may.
pub fn bits_allow_execute(files: &[u32], who: Subject, s: Slot) -> bool
    ensures { result ≡ bits_allow_execute (files_in files.now) who s }
{
    bits_execute(
        who,
        rom::seen::owner(files, s),
        rom::seen::group(files, s),
        rom::seen::bits(files, s),
    )
}

// The label of slot s grants the rights.
pub fn label_allows(t: &Tables, who: Subject, s: Slot, want: Rights) -> bool
    ensures { result ≡ label_allows (file_in t.now) t.now.policy.now who s want }
{
    label_grants(t.policy, who, rom::seen::label(t.files, s), want)
}

// Rights over slot s, asked of its bits (9) and then of its label (10): here alone, so that no call can leave one out or change the order.
#[tactic(auto, unfolding(crate::specs::Permissions::by_both))]
pub fn permission_over(t: &Tables, who: Subject, s: Slot, want: Rights) -> Result<(), Refusal>
    ensures { result ≡ permitted (file_in t.now) t.now.policy.now who s want }
{
    if !bits_allow(t.files, who, s, want) {
        return Err(Refusal::BitsForbid);
    }
    if !label_allows(t, who, s, want) {
        return Err(Refusal::LabelForbids);
    }
    Ok(())
}

// Write over directory d, of which the file in s gains or loses a name: it is of the store, or bits forbid (9).
pub fn permission_to_name(t: &Tables, who: Subject, d: Slot, s: Slot) -> Result<(), Refusal>
    ensures { result ≡ permitted_to_name (file_in t.now) t.now.policy.now who d s }
{
    if is_slot(s) {
        permission_over(t, who, d, Rights::WRITE)
    } else {
        Err(Refusal::BitsForbid)
    }
}
