//! The functions that C calls for a spacer.
ghost use Rattle.yasir_c.specs.SpacerEdge.{NamesSpacer, MakesSpacerBy, SpacesBy};
ghost use Rattle.yasir_c.specs.Statuses.{Returns};

use crate::exports::tick_in;
use crate::handle::{Handle, put_in, taken_out};
use crate::held::Held;
use crate::spaced::Spaced;
use crate::status::Status;
use any_box::{AnySpacer, DefinedSpacer, HeldSpacer, Profile, Proto, SpacerKind};
use std::alloc::Global;

// Returns the spacer of a protocol and a profile, by their numbers, or `None` if there is none.
fn kind_in(protocol: u8, profile: u8) -> Option<SpacerKind>
    ensures { NamesSpacer protocol profile result }
{
    let proto = Proto::of_label(protocol)?;
    let profile = Profile::of_delay(profile)?;
    Some(SpacerKind { proto, profile })
}

// Makes a spacer, and puts it into a handle that holds nothing.
pub(crate) fn make_spacer(
    alloc: Global,
    handle: &mut Handle,
    protocol: u8,
    profile: u8,
    room: u32,
) -> Status
    ensures { MakesSpacerBy ⟦<AnySpacer as DefinedSpacer>⟧ protocol profile room
        handle.old.held.value handle.new.held.value result }
{
    let Some(kind) = kind_in(protocol, profile) else {
        return Status::BadArgument;
    };
    if room == 0 {
        return Status::BadArgument;
    }
    if handle.holds_one() {
        return Status::BadArgument;
    }
    let Ok(spacer) = HeldSpacer::new(alloc, kind, room as usize) else {
        return Status::NoMemory;
    };
    let Ok(held) = Box::new(alloc, Held::Spacer(spacer)) else {
        return Status::NoMemory;
    };
    put_in(handle, held);
    Status::Done
}

/// Makes a spacer that has taken no tick, with room for `room` frames to wait.
#[unsafe(no_mangle)]
pub extern "C" fn yasir_spacer_new(
    alloc: Global,
    handle: &mut Handle,
    protocol: u8,
    profile: u8,
    room: u32,
) -> u8
    ensures { Returns (MakesSpacerBy ⟦<AnySpacer as DefinedSpacer>⟧ protocol
        profile room handle.old.held.value handle.new.held.value) result }
{
    make_spacer(alloc, handle, protocol, profile, room).number()
}

// Takes the next tick with the spacer in a handle.
pub(crate) fn space(alloc: Global, handle: &mut Handle, tick: u16, answer: &mut Spaced) -> Status
    ensures { SpacesBy ⟦<AnySpacer as DefinedSpacer>⟧ handle.old.held.value
        handle.new.held.value tick answer.old answer.new result }
{
    let Some(tick) = tick_in(tick) else {
        return Status::BadArgument;
    };
    let Some(mut held) = taken_out(alloc, handle) else {
        return Status::Empty;
    };
    let taken = held.space(tick);
    put_in(handle, held);
    match taken {
        Ok(step) => {
            *answer = Spaced::of(&step);
            Status::Done
        }
        Err(status) => status,
    }
}

/// Takes the next tick with a spacer.
#[unsafe(no_mangle)]
pub extern "C" fn yasir_spacer_step(
    alloc: Global,
    handle: &mut Handle,
    tick: u16,
    answer: &mut Spaced,
) -> u8
    ensures { Returns (SpacesBy ⟦<AnySpacer as DefinedSpacer>⟧
        handle.old.held.value handle.new.held.value tick answer.old answer.new) result }
{
    space(alloc, handle, tick, answer).number()
}
