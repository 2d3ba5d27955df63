// The writer of sheets, exported for other languages: `sheet_writer::write_sheet_told` under its exported name.
ghost use Rattle.std.specs.Prelude.{length};
ghost use Rattle.sheet_writer.specs.Export.{ends_good, Told, parts_told};

// The sheet of a job's parts, told as numbers. The number comes back, 0 for a sheet that was written; its bytes go to the front
// of `sheet`, with zeros behind them; the detail, which is 0, and how many bytes they are go to the first two of `values`. See
// the promise in sheet_writer/specs/Export.antt.
#[unsafe(no_mangle)]
pub extern "C" fn dustroute_write_sheet(
    wide: usize,
    high: usize,
    deep: usize,
    limit: u32,
    horizontal: u32,
    stair: u32,
    support: u32,
    run: u32,
    blocks: &[u16],
    conductors: &[u16],
    clearances: &[u16],
    terminals: &[u16],
    reserved: &[u16],
    source: &[u16],
    sinks: &[u16],
    sheet: &mut [u8],
    values: &mut [u64],
) -> u32
    ensures { Told (parts_told wide high deep limit horizontal stair support run blocks.now conductors.now clearances.now terminals.now reserved.now source.now sinks.now) (ends_good (length source.now) (length sinks.now)) sheet.old values.old result sheet.new values.new }
{
    sheet_writer::write_sheet_told(
        wide, high, deep, limit, horizontal, stair, support, run, blocks, conductors, clearances,
        terminals, reserved, source, sinks, sheet, values,
    )
}
