//! How many cells a frame needs.
ghost use Rattle.std.specs.Prelude.{◌≡◌, ◌<◌, length};
ghost use Rattle.format.specs.Layout.{entry};
ghost use Rattle.machine.specs.Go.{frame_need};

use format::layout::{entry_place, method_entry};
use frames::HEAD;

/// Where a frame of method `k` ends at most, if it begins at `base`.
pub(crate) fn frame_need(file: &[u8], sheet: &[u16], k: u8, base: usize) -> usize
    requires inside { entry k < length sheet.now }
    requires low { base < 65536 }
    ensures { result ≡ frame_need file.now sheet.now k base }
{
    let k = k as usize;
    let method = method_entry(file, k);
    let peak = sheet[entry_place(k)];
    base + HEAD + method.parameters as usize + method.locals as usize + peak as usize
}
