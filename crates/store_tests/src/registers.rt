use mask_register::MaskRegister;
use media_units::{Duration, Instant};
use rand::seq::SliceRandom;
use rand_core::SeedableRng;
use rand_pcg::Pcg64;
use repair_core::{GapWindow, NackRegister};
use rtp_base::{NackEntry, ReportList, SeqNo};
use std::alloc::{AllocError, Global};
use std::test::Fail;

// What a register answers to one number, and to a round of asking after it.
#[derive(Clone, Copy, Debug, PartialEq, Eq)]
struct Answer {
    accepts: bool,
    fresh: bool,
    greatest: Option<SeqNo>,
    entries: usize,
    first: Option<NackEntry>,
    pending: bool,
    deadline: Option<Instant>,
}

fn play<W: GapWindow>(window: &mut W, number: u64, now: Instant) -> Answer {
    let number = SeqNo::from(number % 0x1_0000_0000_0000);
    let accepts = window.accepts(number);
    let fresh = window.update(number);
    let mut reports = ReportList::new();
    window.nack_reports(now, None, &mut reports);
    Answer {
        accepts,
        fresh,
        greatest: window.max_seq(),
        entries: reports.len(),
        first: reports.as_slice().first().copied(),
        pending: window.has_pending_nacks(),
        deadline: window.recovery_deadline(SeqNo::from(0)..number, now, None),
    }
}

// The numbers come 50 ms apart, so that some of the missing ones are asked for again.
fn answers<W: GapWindow>(alloc: Global, numbers: &[u64]) -> Result<Vec<Answer>, AllocError> {
    let mut window = W::new(alloc, None)?;
    let mut now = Instant::from_nanos(0);
    let mut answers = Vec::new(alloc);
    for number in numbers {
        now = now.saturating_add(Duration::from_nanos(50_000_000));
        answers.push(play(&mut window, *number, now))?;
    }
    Ok(answers)
}

// Numbers that come one after another: jumps of 1, 100, 101, 102, 200, 201 and 65,536, numbers at
// both ends of the window and below the first, replays, and numbers out of order.
static CASES: [[u64; 6]; 40] = [
    [1_000, 1_001, 901, 900, 1_001, 1_000],
    [1_000, 1_050, 1_051, 951, 950, 1_050],
    [0, 1, 0, 0, 2, 0],
    [1_000, 999, 1_001, 1_000, 1_001, 1_102],
    [1_001, 1_000, 1_002, 1_002, 1_101, 902],
    [1_000, 1_100, 1_000, 999, 1_100, 1_099],
    [1_000, 1_050, 1_150, 1_050, 1_049, 1_050],
    [0, 100, 99, 0, 101, 1],
    [1_000, 999, 1_100, 1_000, 1_001, 1_201],
    [1_100, 1_000, 1_101, 1_200, 1_200, 1_100],
    [1_000, 1_101, 1_001, 1_000, 1_101, 1_100],
    [1_000, 1_050, 1_151, 1_051, 1_050, 1_050],
    [0, 101, 100, 0, 102, 2],
    [1_000, 999, 1_101, 1_000, 1_001, 1_202],
    [1_101, 1_000, 1_102, 1_202, 1_201, 1_102],
    [1_000, 1_102, 1_002, 1_001, 1_102, 1_101],
    [1_000, 1_050, 1_152, 1_052, 1_051, 1_050],
    [0, 102, 101, 0, 103, 3],
    [1_000, 999, 1_102, 1_000, 1_001, 1_203],
    [1_102, 1_000, 1_103, 1_204, 1_202, 1_104],
    [1_000, 1_200, 1_100, 1_099, 1_200, 1_199],
    [1_000, 1_050, 1_250, 1_150, 1_149, 1_050],
    [0, 200, 199, 0, 201, 101],
    [1_000, 999, 1_200, 1_000, 1_001, 1_301],
    [1_200, 1_000, 1_201, 1_400, 1_300, 1_300],
    [1_000, 1_201, 1_101, 1_100, 1_201, 1_200],
    [1_000, 1_050, 1_251, 1_151, 1_150, 1_050],
    [0, 201, 200, 0, 202, 102],
    [1_000, 999, 1_201, 1_000, 1_001, 1_302],
    [1_201, 1_000, 1_202, 1_402, 1_301, 1_302],
    [1_000, 66_536, 66_436, 66_435, 66_536, 66_535],
    [1_000, 1_050, 66_586, 66_486, 66_485, 1_050],
    [0, 65_536, 65_535, 0, 65_537, 65_437],
    [1_000, 999, 66_536, 1_000, 1_001, 66_637],
    [66_536, 1_000, 66_537, 132_072, 66_636, 131_972],
    [10, 10, 10, 11, 11, 12],
    [10, 12, 11, 11, 10, 9],
    [65_535, 65_536, 65_534, 65_535, 65_537, 65_436],
    [
        281_474_976_710_554,
        281_474_976_710_655,
        281_474_976_710_554,
        281_474_976_710_555,
        281_474_976_710_654,
        281_474_976_710_655,
    ],
    [500, 601, 500, 501, 502, 601],
];

// Both registers answer alike, to each case and to one other order of it.
#[test]
fn registers_agree(rt: HostRuntime) -> Result<(), Fail> {
    let mut random = Pcg64::seed_from_u64(14);
    for case in CASES.iter() {
        let mut order = case.to_vec(rt.alloc())?;
        for _order in 0..2 {
            let slots = answers::<NackRegister>(rt.alloc(), order.as_slice())?;
            let mask = answers::<MaskRegister>(rt.alloc(), order.as_slice())?;
            assert_eq!(rt; slots.as_slice(), mask.as_slice(), "{order:?}");
            order.as_mut_slice().shuffle(&mut random);
        }
    }
    Ok(())
}

// The first asks of a number: five rounds, 105 ms apart, and then no more.
#[test]
fn five_asks(rt: HostRuntime) -> Result<(), Fail> {
    let mut window = MaskRegister::new(rt.alloc(), Some(SeqNo::from(10)))?;
    assert!(rt; window.update(SeqNo::from(12)));
    let mut now = Instant::from_nanos(0);
    for round in 0..7u64 {
        let mut reports = ReportList::new();
        window.nack_reports(now, None, &mut reports);
        let asked = reports.as_slice().first().copied();
        let wanted = (round < 5).then_some(NackEntry { pid: 11, blp: 0 });
        assert_eq!(rt; asked, wanted);
        now = now.saturating_add(Duration::from_nanos(105_000_000));
    }
    Ok(())
}
