// The graphics state: corner, scale, kept states and clips.
use super::texts::{report_many, report_texts};

static SHIFTS: [&str; 10] = [
    "3 4 shifts 1 1 moves fills",
    "3 4 shifts 3 4 shifts 0 0 moves fills",
    "1048575 1048575 shifts 0 0 moves fills",
    "1048575 1048575 shifts 1 0 moves fills",
    "1048576 0 shifts",
    "0 1048576 shifts",
    "shifts",
    "1 shifts",
    "{ } shifts",
    "/x 1 shifts",
];

static SCALES: [&str; 11] = [
    "8 scales 2 3 moves fills",
    "8 scales 3 scales 5 5 moves fills",
    "8 scales 2 2 shifts 1 1 moves fills",
    "0 scales 9 9 moves fills",
    "65535 scales 1 1 moves fills",
    "65536 scales",
    "65535 scales 16 scales 1 1 moves fills",
    "65535 scales 17 scales",
    "2147483647 scales",
    "scales",
    "{ } scales",
];

static KEPT: [&str; 6] = [
    "keeps 9 greys back fills",
    "9 greys keeps 5 greys fills back fills",
    "8 scales keeps 2 scales 1 1 shifts 1 1 moves back 1 1 lines fills",
    "8 scales keeps 2 scales back 3 3 moves fills",
    "back",
    "keeps keeps back back back",
];

static CLIPS: [&str; 8] = [
    "clips-by fills",
    "0 0 moves 3 0 lines 3 6 lines clips-by fills",
    "0 0 moves clips-by 1 1 moves clips-by fills",
    "0 0 moves clips-by 1 1 lines",
    "keeps 0 0 moves clips-by back fills",
    "0 0 moves clips-by keeps 1 1 moves clips-by back 2 2 moves 3 3 lines clips-by fills",
    "0 0 moves clips-by shows fills",
    "keeps 0 0 moves 3 0 lines 3 6 lines 0 6 lines clips-by 0 0 moves 6 0 lines 6 6 lines 0 6 lines fills back 100 greys 4 4 moves 6 4 lines 6 6 lines 4 6 lines fills shows",
];

// paths and points of the clips in force, 1,024 together
fn report_limits(rt: &HostRuntime) -> anyhow::Result<()> {
    report_many(rt, 1023, "0 0 moves ", "clips-by fills")?;
    report_many(rt, 1024, "0 0 moves ", "clips-by fills")?;
    report_many(rt, 1022, "0 0 moves ", "clips-by clips-by fills")?;
    report_many(rt, 1022, "0 0 moves ", "clips-by clips-by clips-by fills")?;
    report_many(
        rt,
        1023,
        "0 0 moves ",
        "keeps clips-by back 1 1 moves clips-by fills",
    )?;
    report_many(rt, 512, "0 0 moves clips-by ", "fills")?;
    report_many(rt, 513, "0 0 moves clips-by ", "fills")?;
    report_many(rt, 1024, "clips-by ", "fills")?;
    report_many(rt, 1025, "clips-by ", "fills")
}

pub fn report_graphics(rt: &HostRuntime) -> anyhow::Result<()> {
    report_texts(rt, &SHIFTS)?;
    report_texts(rt, &SCALES)?;
    report_texts(rt, &KEPT)?;
    report_texts(rt, &CLIPS)?;
    report_many(rt, 16, "keeps ", "shows")?;
    report_many(rt, 17, "keeps ", "shows")?;
    report_limits(rt)
}
