//! A file whose uses are visited.
ghost use Rattle.std.specs.Prelude.{◌≡◌, ◌<◌, IfOk, IfSome, length};
ghost use Rattle.op_units.specs.Cycles.{FrameIs};

use crate::uses::Use;
use op_base::{NoMemory, Place, Text};
use std::alloc::Global;
use std::collections::VecDeque;

/// A file whose uses are visited.
#[derive(Drop)]
pub struct Frame {
    /// The file's name.
    pub file: Text,
    /// The unit that it is, in small letters. None is the main file.
    pub unit: Option<Text>,
    /// What is still to be visited.
    pub uses: VecDeque<Use>,
    /// The place of the name behind these, if interface uses have a cycle by it.
    pub closing: Option<Place>,
}

/// A file of which nothing was visited yet, with its uses up to the one of the interface part, by its number, that closes a cycle.
pub fn frame_of(
    file: Text,
    unit: Option<Text>,
    closing: Option<usize>,
    mut interface: Vec<Use>,
    mut implementation: Vec<Use>,
) -> Result<Frame, NoMemory>
    requires { IfSome closing (λ at. at < length interface.items) }
    ensures { IfOk result (FrameIs file unit closing interface.items implementation.items) }
{
    let closing = match closing {
        None => {
            interface.append(&mut implementation)?;
            None
        }
        Some(at) => {
            let place = interface[at].place;
            interface.truncate(at);
            Some(place)
        }
    };
    Ok(Frame {
        file,
        unit,
        uses: VecDeque::from_vec(interface),
        closing,
    })
}
