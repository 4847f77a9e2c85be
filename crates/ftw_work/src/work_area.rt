//! What a work area says.
ghost use Rattle.std.specs.Prelude.{◌≡◌, ◌≤◌, ◌-◌, ◌==◌, ◌&&◌, drop, length};
ghost use Rattle.std.specs.List.{starts_with};
ghost use Rattle.var_types.specs.Layout.{work_area_size};
ghost use Rattle.var_types.specs.WorkArea.{HasFewSlots, half_slot, is_blank, state_behind, state_from, work_state};

use crate::layout::{OPEN, SLOT_BYTES, SLOTS};
use var_types::{WorkState, is_blank};

// The header of a work area that is made: its signature, and its open gate.
const MARK: [u8; SLOT_BYTES] = *b"VARSVC-FTW-0001\xFE";

// A slot with both of its gates open.
const DONE_SLOT: [u8; SLOT_BYTES] = [
    OPEN, OPEN, 0xFF, 0xFF, 0xFF, 0xFF, 0xFF, 0xFF, 0xFF, 0xFF, 0xFF, 0xFF, 0xFF, 0xFF, 0xFF, 0xFF,
];

// A slot with its spare gate open, and its destination gate closed.
const HALF_SLOT: [u8; SLOT_BYTES] = [
    OPEN, 0xFF, 0xFF, 0xFF, 0xFF, 0xFF, 0xFF, 0xFF, 0xFF, 0xFF, 0xFF, 0xFF, 0xFF, 0xFF, 0xFF, 0xFF,
];

// Whether a slot is pending, and all others behind it are closed.
fn is_pending(rest: &[u8]) -> bool
    ensures { result ≡ (starts_with ◌==◌ rest.now half_slot && is_blank (drop 16 rest.now)) }
{
    rest.starts_with(&HALF_SLOT) && is_blank(behind(rest))
}

// What stands behind a slot.
#[tactic(auto, using(std::proofs::lemmas::List::take_rest))]
fn behind(rest: &[u8]) -> &[u8]
    requires { 16 ≤ length rest.now }
    ensures { result.now ≡ drop 16 rest.now }
{
    &rest[SLOT_BYTES..]
}

// What the slots behind those that are done say.
fn state_behind(slots: u32, rest: &[u8]) -> WorkState
    ensures { result ≡ state_behind slots rest.now }
{
    if is_blank(rest) {
        WorkState::Clean { slots }
    } else if is_pending(rest) {
        WorkState::Pending { slot: slots }
    } else {
        WorkState::Unclean
    }
}

fn state_of_slots(slots: &[u8]) -> WorkState
    requires { length slots.now ≡ work_area_size - 16 }
    ensures { result ≡ state_from 255 0 slots.now }
{
    let mut rest = slots;
    for done in 0..SLOTS {
        if !rest.starts_with(&DONE_SLOT) {
            return state_behind(done, rest);
        }
        rest = behind(rest);
    }
    state_behind(SLOTS, rest)
}

/// What the bytes of a work area say.
#[tactic(auto, unfolding(var_types::specs::WorkArea::work_state))]
pub fn state(bytes: &[u8]) -> WorkState
    requires { length bytes.now ≡ work_area_size }
    ensures state { result ≡ work_state bytes.now }
    ensures slots { HasFewSlots result }
{
    if !bytes.starts_with(&MARK) {
        return WorkState::Unclean;
    }
    state_of_slots(behind(bytes))
}
