// Texts stored into words that held sevens: what the words hold then, or why nothing was stored.
use std::io;
use text::store_tokens;
use tokens::Stage;

// A text, and how many words are lent for it.
struct Lent {
    source: &'static str,
    room: usize,
}

const MOST: usize = 12;

const TEXTS: [Lent; 10] = [
    Lent {
        source: "",
        room: 0,
    },
    Lent {
        source: "",
        room: 2,
    },
    Lent {
        source: "5",
        room: 2,
    },
    Lent {
        source: "5 x",
        room: 6,
    },
    Lent {
        source: "/b { a } b",
        room: 10,
    },
    Lent {
        source: "{ 1 { 2 } } shows",
        room: 12,
    },
    Lent {
        source: "{ } fills",
        room: 6,
    },
    Lent {
        source: "{ } fills",
        room: 5,
    },
    Lent {
        source: "5 }",
        room: 4,
    },
    Lent {
        source: "5 adds",
        room: 4,
    },
];

fn print_words(rt: &HostRuntime, words: &[u64]) -> io::Result<()> {
    for word in words {
        print!(rt; " {word}")?;
    }
    println!(rt; "")
}

fn report_into<S: Stage>(rt: &HostRuntime, source: &str, words: &mut [u64]) -> io::Result<()> {
    let lent = words.len();
    print!(rt; "stored in {lent}, {source}:")?;
    match store_tokens::<S>(source.as_bytes(), words) {
        Ok(n) => print!(rt; " took {n}:")?,
        Err(refusal) => print!(rt; " {refusal}:")?,
    }
    print_words(rt, words)
}

pub fn report_stored<S: Stage>(rt: &HostRuntime) -> io::Result<()> {
    for text in &TEXTS {
        let mut words = [7u64; MOST];
        report_into::<S>(rt, text.source, &mut words[0..text.room.min(MOST)])?;
    }
    Ok(())
}
