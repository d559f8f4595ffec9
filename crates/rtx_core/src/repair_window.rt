ghost use Rattle.std.specs.Prelude.{◌≡◌, ◌<◌, ◌%◌, [], Option};
ghost use Rattle.std.specs.Option.{ForSome};
ghost use Rattle.rtp_base.specs.Window.{is_fresh_after, with_fresh, StandsFor as WindowStandsFor};
ghost use Rattle.rtx_core.specs.Repairs.{RepairPast, repair_near, repair_number, is_fresh_repair, repair_opened, Remembers};

use rtp_base::{NUMBER_LIMIT, SeqNo, SeqNoWindow, widen16};
use std::marker::Model;

/// Which repairs of a stream were taken (RFC 4588), by their own numbers. It begins with the first
/// repair that opens: up to the greatest number that is seen on the SSRC of that repair by then, no
/// number is fresh. What is seen is handed in by the caller, below 2^48; once a repair has opened,
/// it does not count.
#[derive(Debug, Drop)]
pub struct RepairWindow {
    window: Option<SeqNoWindow>,
}

impl Model for RepairWindow {
    ghost use Rattle.std.specs.Prelude.{Option};
    ghost use Rattle.rtp_base.specs.declared.window.SeqNoWindow.{SeqNoWindow};

    ghost Value = { Option SeqNoWindow };

    ghost view = { λ w. w.window };
}

/// A window above what is seen, with one number, where that is fresh.
fn window_with(seen: Option<SeqNo>, number: SeqNo) -> SeqNoWindow
    ensures { WindowStandsFor result seen (with_fresh seen [] number) }
{
    match seen {
        Some(greatest) => {
            let mut window = SeqNoWindow::new_after(greatest);
            window.update(number);
            window
        }
        None => SeqNoWindow::new(number),
    }
}

/// Whether a number is above what is seen, if something is.
fn is_above(seen: Option<SeqNo>, number: SeqNo) -> bool
    ensures { result ≡ is_fresh_after seen [] number }
{
    match seen {
        Some(greatest) => greatest < number,
        None => true,
    }
}

fn number_of(number: Option<SeqNo>) -> Option<u64>
    ensures { result ≡ number }
{
    match number {
        Some(number) => Some(u64::from(number)),
        None => None,
    }
}

impl RepairWindow {
    /// The window of a stream on which no repair opened.
    pub fn new() -> Self
        ensures { Remembers result None }
    {
        RepairWindow { window: None }
    }

    /// The number next to which that of a repair is.
    fn near(&self, seen: Option<SeqNo>) -> Option<SeqNo>
        requires { ForSome seen (λ n. n < NUMBER_LIMIT) }
        ensures near { (past : Option RepairPast) → Remembers self.now past → result ≡ repair_near seen past }
        ensures small { ForSome result (λ n. n < NUMBER_LIMIT) }
    {
        match &self.window {
            Some(window) => {
                let greatest = window.max_seq();
                if u64::from(greatest) < NUMBER_LIMIT {
                    Some(greatest)
                } else {
                    None
                }
            }
            None => seen,
        }
    }

    /// The number of a repair with these low 16 bits (RFC 3711 section 3.3.1).
    pub fn number_for(&self, low: u16, seen: Option<SeqNo>) -> SeqNo
        requires { ForSome seen (λ n. n < NUMBER_LIMIT) }
        ensures number { (past : Option RepairPast) → Remembers self.now past → result ≡ repair_number seen past low }
        ensures small { result < NUMBER_LIMIT }
        ensures low { result % 65536 ≡ low }
    {
        SeqNo::from(widen16(number_of(self.near(seen)), low))
    }

    /// Whether a repair with this number may be taken.
    pub fn accepts(&self, number: SeqNo, seen: Option<SeqNo>) -> bool
        ensures { (past : Option RepairPast) → Remembers self.now past → result ≡ is_fresh_repair seen past number }
    {
        match &self.window {
            Some(window) => window.accepts(number),
            None => is_above(seen, number),
        }
    }

    /// Takes the number of a repair that opened, below 2^48.
    pub fn take(&mut self, number: SeqNo, seen: Option<SeqNo>)
        requires number { number < NUMBER_LIMIT }
        requires seen { ForSome seen (λ n. n < NUMBER_LIMIT) }
        ensures { (past : Option RepairPast) → Remembers self.old past → Remembers self.new (repair_opened seen number past) }
    {
        match &mut self.window {
            Some(window) => {
                window.update(number);
            }
            None => {
                self.window = Some(window_with(seen, number));
            }
        }
    }
}
