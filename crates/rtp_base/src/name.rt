ghost use Rattle.std.specs.Prelude.{◌≡◌, ◌↔◌, length, nat_lt, IsTrue, Some};
ghost use Rattle.std.specs.List.{list_all};
ghost use Rattle.rtp_base.specs.Name.{is_name, name_of};

use std::fmt;
use std::marker::Model;

/// The most bytes of a mid or a rid: those of an element in the one-byte form (RFC 8285 section
/// 4.2).
pub const MAX_NAME_LEN: usize = 16;

// 1 to 16 ASCII bytes, with zeros behind them. Contracts see the list of the bytes.
#[derive(Clone, Copy, Debug)]
struct Name {
    bytes: [u8; MAX_NAME_LEN],
    len: usize,
}

impl Model for Name {
    ghost use Rattle.std.specs.Prelude.{ℕ, List, ◌-◌, ◌++◌, length, take, replicate};
    ghost use Rattle.rtp_base.specs.Name.{IsKeptName};
    ghost use Rattle.rtp_base.specs.declared.name.TheConstants.{MAX_NAME_LEN};
    ghost use Rattle.std.proofs.Common.{rules};
    ghost use Rattle.std.proofs.lemmas.List.{length-take-le};

    ghost Value = { List ℕ };

    ghost view = { λ n. take n.len n.bytes };

    ghost invariant = { λ n. IsKeptName n.bytes n.len };

    ghost inverse = { λ l. record { bytes = l ++ replicate (MAX_NAME_LEN - length l) 0; len = length l } };

    ghost inverse_ok = { λ n h. Prim.search (rules, length-take-le, h.long, h.zeros, h.within) };
}

impl PartialEq for Name {
    ghost use Rattle.std.specs.Prelude.{◌==◌};
    ghost use Rattle.std.proofs.Common.{rules};
    ghost use Rattle.std.specs.Cmp.Lexicographic.{pointwise};
    ghost use Rattle.std.specs.Cmp.Rules.{comparing};

    ghost eq = { pointwise ◌==◌ };

    ghost laws = { Prim.search (comparing, rules) };

    fn eq(&self, other: &Name) -> bool {
        self.as_slice() == other.as_slice()
    }
}

impl Eq for Name {
    ghost use Rattle.std.proofs.Common.{rules};
    ghost use Rattle.std.specs.Cmp.Rules.{comparing};

    ghost laws = { Prim.search (comparing, rules) };
}

fn is_ascii(bytes: &[u8]) -> bool
    ensures { result ≡ list_all (λ b. nat_lt b 128) bytes.now }
{
    bytes.iter().all(|b| *b < 128)
}

fn is_name(bytes: &[u8]) -> bool
    ensures { result ≡ is_name bytes.now }
{
    !bytes.is_empty() && bytes.len() <= MAX_NAME_LEN && is_ascii(bytes)
}

impl Name {
    ghost use Rattle.std.specs.Prelude.{◌++◌, ◌-◌, replicate};

    fn kept(bytes: &[u8]) -> Self
        requires { IsTrue (is_name bytes.now) }
        ensures { result ≡ bytes.now }
    {
        let mut kept = [0; MAX_NAME_LEN];
        let (front, _) = kept.split_at_mut(bytes.len());
        front.copy_from_slice(bytes);
        Name {
            bytes: kept,
            len: bytes.len(),
        }
    }

    fn from_slice(bytes: &[u8]) -> Option<Self>
        ensures { result ≡ name_of bytes.now }
    {
        if is_name(bytes) {
            Some(Name::kept(bytes))
        } else {
            None
        }
    }

    fn as_slice(&self) -> &[u8]
        ensures value { result.now ≡ self.now }
        ensures name { IsTrue (is_name self.now) }
    {
        &self.bytes[..self.len]
    }

    #[tactic(auto, using(crate::proofs::Names::name_is_text))]
    fn as_str(&self) -> &str
        ensures { result.now ≡ self.now }
    {
        match str::from_utf8(self.as_slice()) {
            Ok(text) => text,
            Err(_) => unreachable!(),
        }
    }
}

/// The identification of a media section (RFC 9143 section 14): 1 to 16 ASCII bytes. Contracts see
/// the list of the bytes.
#[derive(Clone, Copy, Debug, PartialEq, Eq)]
pub struct Mid(Name);

impl Model for Mid {
    ghost use Rattle.std.specs.Prelude.{ℕ, List};

    ghost Value = { List ℕ };

    ghost view = { λ m. m.0 };

    ghost inverse = { λ l. record { 0 = l } };
}

impl Mid {
    /// The bytes as a mid. None exactly where there are none or more than 16, or one is not ASCII.
    pub fn from_slice(bytes: &[u8]) -> Option<Self>
        ensures { result ≡ name_of bytes.now }
    {
        Some(Mid(Name::from_slice(bytes)?))
    }

    /// The bytes, 1 to 16 of them.
    pub fn as_slice(&self) -> &[u8]
        ensures value { result.now ≡ self.now }
        ensures name { IsTrue (is_name self.now) }
    {
        self.0.as_slice()
    }
}

impl fmt::Display for Mid {
    ghost output = { λ m. Some m };

    fn fmt<W: fmt::Write>(&self, f: &mut fmt::Formatter<W>) -> fmt::Result {
        let text = self.0.as_str();
        write!(f, "{text}")
    }
}

/// The identification of a stream in its media section (RFC 8852): 1 to 16 ASCII bytes. Contracts
/// see the list of the bytes.
#[derive(Clone, Copy, Debug, PartialEq, Eq)]
pub struct Rid(Name);

impl Model for Rid {
    ghost use Rattle.std.specs.Prelude.{ℕ, List};

    ghost Value = { List ℕ };

    ghost view = { λ m. m.0 };

    ghost inverse = { λ l. record { 0 = l } };
}

impl Rid {
    /// The bytes as a rid. None exactly where there are none or more than 16, or one is not ASCII.
    pub fn from_slice(bytes: &[u8]) -> Option<Self>
        ensures { result ≡ name_of bytes.now }
    {
        Some(Rid(Name::from_slice(bytes)?))
    }

    /// The bytes, 1 to 16 of them.
    pub fn as_slice(&self) -> &[u8]
        ensures value { result.now ≡ self.now }
        ensures name { IsTrue (is_name self.now) }
    {
        self.0.as_slice()
    }
}

impl fmt::Display for Rid {
    ghost output = { λ m. Some m };

    fn fmt<W: fmt::Write>(&self, f: &mut fmt::Formatter<W>) -> fmt::Result {
        let text = self.0.as_str();
        write!(f, "{text}")
    }
}
