ghost use Rattle.std.specs.Prelude.{◌≡◌, ℕ, List, [], ◌∷◌, Some, None};
ghost use Rattle.std.specs.Bool.{OnFalse};
ghost use Rattle.rtp_base.specs.Window.{holds, is_fresh_after, with_fresh, greatest_after};

use crate::number::SeqNo;

/// How many numbers are told apart, the greatest and those below it: a choice.
pub const WINDOW_LEN: u64 = 128;

/// The numbers of repair datagrams that were taken, as far as it takes to tell which are fresh:
/// those above the greatest, and those above the greatest less 128 that were not taken. Where it
/// begins after a floor, no number up to that is fresh.
#[derive(Clone, Copy, Debug)]
pub struct SeqNoWindow {
    floor: Option<u64>,
    greatest: u64,
    slots: [Option<u64>; WINDOW_LEN as usize],
}

fn is_held(slots: &[Option<u64>; WINDOW_LEN as usize], number: u64) -> bool
    ensures { result ≡ holds slots.now number }
{
    match slots[(number % WINDOW_LEN) as usize] {
        Some(held) => held == number,
        None => false,
    }
}

impl SeqNoWindow {
    ghost use Rattle.std.specs.declared.option.Option.{Option};
    ghost use Rattle.rtp_base.specs.Window.{StandsFor, accepts_number, put_number};

    /// The window after this number was taken.
    pub fn new(number: SeqNo) -> Self
        ensures { StandsFor result None (number ∷ []) }
    {
        let number = u64::from(number);
        let mut slots = [None; WINDOW_LEN as usize];
        slots[(number % WINDOW_LEN) as usize] = Some(number);
        SeqNoWindow {
            floor: None,
            greatest: number,
            slots,
        }
    }

    /// The window that takes no number up to this one.
    pub fn new_after(number: SeqNo) -> Self
        ensures { StandsFor result (Some number) [] }
    {
        let number = u64::from(number);
        SeqNoWindow {
            floor: Some(number),
            greatest: number,
            slots: [None; WINDOW_LEN as usize],
        }
    }

    fn is_open(&self, number: u64) -> bool
        ensures { result ≡ accepts_number self.now number }
    {
        if let Some(floor) = self.floor {
            if number <= floor {
                return false;
            }
        }
        if self.greatest < number {
            return true;
        }
        self.greatest - number < WINDOW_LEN && !is_held(&self.slots, number)
    }

    fn put(&mut self, number: u64)
        ensures { self.new ≡ put_number self.old number }
    {
        self.greatest = self.greatest.max(number);
        self.slots[(number % WINDOW_LEN) as usize] = Some(number);
    }

    /// Whether the number is fresh.
    #[tactic(auto, using(crate::proofs::WindowLaws::accepts_number_is))]
    pub fn accepts(&self, number: SeqNo) -> bool
        ensures { (floor : Option ℕ) (l : List ℕ) → StandsFor self.now floor l → result ≡ is_fresh_after floor l number }
    {
        self.is_open(u64::from(number))
    }

    /// Takes the number if it is fresh, and tells whether it was.
    #[tactic(auto, using(crate::proofs::WindowLaws::put_number_is))]
    pub fn update(&mut self, number: SeqNo) -> bool
        ensures fresh { (floor : Option ℕ) (l : List ℕ) → StandsFor self.old floor l → result ≡ is_fresh_after floor l number }
        ensures taken { (floor : Option ℕ) (l : List ℕ) → StandsFor self.old floor l → StandsFor self.new floor (with_fresh floor l number) }
        ensures refused { OnFalse result (self.new ≡ self.old) }
    {
        let fresh = self.accepts(number);
        if fresh {
            self.put(u64::from(number));
        }
        fresh
    }

    /// The greatest number that was taken, or the floor where that is greater.
    #[tactic(auto, using(crate::proofs::WindowLaws::greatest_is))]
    pub fn max_seq(&self) -> SeqNo
        ensures { (floor : Option ℕ) (l : List ℕ) → StandsFor self.now floor l → result ≡ greatest_after floor l }
    {
        SeqNo::from(self.greatest)
    }
}
