use std::alloc::{AllocError, Global};
use std::io;
use text::count_tokens;
use text::refusal::Refusal;
use tokens::Stage;

// What stands before and behind a byte.
struct Around {
    name: &'static str,
    before: &'static [u8],
    behind: &'static [u8],
}

static AROUND: [Around; 8] = [
    Around {
        name: "alone",
        before: b"",
        behind: b"",
    },
    Around {
        name: "behind a",
        before: b"a",
        behind: b"",
    },
    Around {
        name: "behind 5",
        before: b"5",
        behind: b"",
    },
    Around {
        name: "behind /",
        before: b"/",
        behind: b"",
    },
    Around {
        name: "behind /a",
        before: b"/a",
        behind: b"",
    },
    Around {
        name: "behind {}",
        before: b"{}",
        behind: b"",
    },
    Around {
        name: "between { and }",
        before: b"{",
        behind: b"}",
    },
    Around {
        name: "between % and }",
        before: b"%",
        behind: b"}",
    },
];

// One character for an answer: so many tokens, or x, y or z where it is refused by 1 at the byte that is tried, at the next or the one after that.
fn sign(answer: Result<usize, Refusal>, tried: usize) -> char {
    match answer {
        Ok(0) => '0',
        Ok(1) => '1',
        Ok(2) => '2',
        Ok(3) => '3',
        Err(Refusal::Unreadable { place }) => match place.checked_sub(tried) {
            Some(0) => 'x',
            Some(1) => 'y',
            Some(2) => 'z',
            _ => '?',
        },
        _ => '?',
    }
}

fn sign_of<S: Stage>(heap: Global, around: &Around, byte: u8) -> Result<char, AllocError> {
    let mut source = around.before.to_vec(heap)?;
    source.push(byte)?;
    source.extend_from_slice(around.behind)?;
    Ok(sign(count_tokens::<S>(source.as_slice()), around.before.len()))
}

// The answers for 64 bytes, from the first on.
fn report_row<S: Stage>(rt: &HostRuntime, around: &Around, first: u8) -> io::Result<()> {
    let heap = rt.alloc();
    let mut signs = String::new(heap);
    for k in 0..64u8 {
        signs.push(sign_of::<S>(heap, around, first.saturating_add(k))?)?;
    }
    let name = around.name;
    println!(rt; "{name}, byte {first} and on: {signs}")
}

pub fn report_bytes<S: Stage>(rt: &HostRuntime) -> io::Result<()> {
    for around in &AROUND {
        for first in [0, 64, 128, 192] {
            report_row::<S>(rt, around, first)?;
        }
    }
    Ok(())
}
