// A function file, written and read, exported for other languages: crate `function_file` has all of it, told as numbers.
ghost use Rattle.function_file.specs.WriteTold.{WriteTold};
ghost use Rattle.function_file.specs.ReadTold.{ReadTold};
ghost use Rattle.exports.specs.Export.{room_of};

use room::Room;

// The text that lays a room in the game, as `function_file::tell_write_function`.
#[unsafe(no_mangle)]
pub extern "C" fn dustroute_write_function(
    wide: usize,
    high: usize,
    deep: usize,
    kinds: &[u8],
    facings: &[u8],
    text: &mut [u8],
    values: &mut [u64],
) -> u32
    ensures { WriteTold (room_of wide high deep) kinds.now facings.now text.old values.old result text.new values.new }
{
    let room = Room {
        wide: wide,
        high: high,
        deep: deep,
    };
    function_file::tell_write_function(room, kinds, facings, text, values)
}

// The room that a text lays, as `function_file::tell_read_function`.
#[unsafe(no_mangle)]
pub extern "C" fn dustroute_read_function(
    wide: usize,
    high: usize,
    deep: usize,
    text: &[u8],
    kinds: &mut [u8],
    facings: &mut [u8],
    values: &mut [u64],
) -> u32
    ensures { ReadTold (room_of wide high deep) text.now kinds.old facings.old values.old result kinds.new facings.new values.new }
{
    let room = Room {
        wide: wide,
        high: high,
        deep: deep,
    };
    function_file::tell_read_function(room, text, kinds, facings, values)
}
