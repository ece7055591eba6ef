//! From low code to an image.
ghost use Rattle.std.specs.Prelude.{◌≡◌, ◌<◌, ◌≤◌, IfOk, IfErr, IsTrue, OnOk};
ghost use Rattle.op_image.specs.Building.{is_buildable};
ghost use Rattle.op_image.specs.Means.{AreBytes, Means};
ghost use Rattle.op_link.specs.Linking.{image_of, linked_size};
ghost use Rattle.op_link.specs.Memory.{are_in_range, most_linked};
ghost use Rattle.op_link.specs.declared.linker.LinkError.{LinkError};
ghost use Rattle.op_select.specs.Selection.{select_of};

use op_layout::Layout;
use op_link::{LinkError, Settings, link};
use op_low::Low;
use op_select::select;
use std::alloc::Global;

/// Bytes are below 256. It does nothing, and tells the proofs what the type says.
fn are_bytes(image: &[u8])
    ensures { AreBytes image.now }
{}

/// The image of a program in low code, which is freed while objects are made of it. `Limit` comes exactly where code, constants and initial
/// globals take more than 67,108,864 bytes, and `NoMemory` only where the allocator has no room. The image does what the low code does.
pub fn build(
    alloc: Global,
    low: Low,
    layout: &Layout,
    settings: &Settings,
) -> Result<Vec<u8>, LinkError>
    requires buildable { IsTrue (is_buildable low layout.now) }
    requires settings { IsTrue (are_in_range settings.now) }
    ensures image { IfOk result (λ image. image.items ≡ image_of (select_of low) layout.now settings.now) }
    ensures within { OnOk result (linked_size (select_of low) layout.now settings.now ≤ most_linked) }
    ensures means { IfOk result (λ image. Means low layout.now settings.now image.items) }
    ensures limit { IfErr result (λ error. error ≡ LinkError.Limit → most_linked < linked_size (select_of low) layout.now settings.now) }
{
    let objects = select(alloc, low)?;
    let image = link(alloc, &objects, layout, settings)?;
    are_bytes(image.as_slice());
    Ok(image)
}
