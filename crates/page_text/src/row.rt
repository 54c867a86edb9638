ghost use Rattle.std.specs.Prelude.{◌≡◌, ◌++◌, OnOk};
ghost use Rattle.page_text.specs.Marks.{mark_of, marks};

use std::alloc::AllocError;

fn mark(grey: u8) -> u8
    ensures { result ≡ mark_of grey }
{
    match grey {
        0 => b'#',
        255 => b'.',
        _ => b'+',
    }
}

// Adds a row of dots to a text, as characters with an end of line.
pub fn push_row(text: &mut Vec<u8>, row: &[u8]) -> Result<(), AllocError>
    ensures { OnOk result (text.new.items ≡ text.old.items ++ marks row.now) }
{
    for grey in row {
        text.push(mark(*grey))?;
    }
    text.push(b'\n')?;
    Ok(())
}
