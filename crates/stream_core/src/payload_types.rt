ghost use Rattle.std.specs.Prelude.{◌≡◌, ◌==◌, ◌<◌, ℕ, [], length, nat_eq, is_some, IfSome, OnOk, OnErr};
ghost use Rattle.std.specs.Map.Iter.{ShowsInOrder, deref_pair};
ghost use Rattle.indexmap.specs.IndexMap.{insert_entry};
ghost use Rattle.stream_core.specs.Tables.{place_of};
ghost use Rattle.stream_core.specs.declared.payload_types.TypeRow.{TypeRow as Row};
ghost use Rattle.stream_core.specs.Repairing.{rtx_type_of, primary_type_of, ArePrimaries, claim_in, claims_in};
ghost use Rattle.stream_core.specs.Reporting.{clock_under};

use indexmap::IndexMap;
use indexmap::map::Iter;
use mapping_core::TypeClaim;
use rtp_base::{Frequency, Pt};
use std::alloc::{AllocError, Global};
use std::marker::Model;

/// A payload type that both ends know.
#[derive(Clone, Copy, Debug, PartialEq, Eq)]
pub struct TypeRow {
    /// Its number, at most 127 on the wire.
    pub pt: Pt,
    /// The clock of its RTP times.
    pub clock: Frequency,
    /// The type of repairs of its packets (RFC 4588 section 8.1), where there is one.
    pub rtx: Option<Pt>,
    /// The type under which it is sent with older frames (RED, RFC 2198), where there is one. Its
    /// datagrams are taken where it has a row of its own.
    pub red: Option<Pt>,
}

impl TypeRow {
    fn claim(&self) -> TypeClaim
        ensures { result ≡ claim_in self.now }
    {
        TypeClaim {
            pt: self.pt,
            rtx: self.rtx,
            red: self.red,
        }
    }
}

/// The payload types that both ends know, each under its number, in the order in which they were
/// added. Contracts see the list of numbers and rows.
#[derive(Drop)]
pub struct PayloadTypes {
    rows: IndexMap<Pt, TypeRow>,
    // Under each type of repairs, the first type whose packets have such repairs.
    primaries: [Option<Pt>; 256],
    // Under each type the place where its row stands.
    places: [Option<usize>; 256],
    // The rows as claims, in the same order.
    claims: Vec<TypeClaim>,
}

impl Model for PayloadTypes {
    ghost use Rattle.std.specs.Prelude.{ℕ, List};
    ghost use Rattle.stream_core.specs.declared.payload_types.TypeRow.{TypeRow};

    ghost Value = { List (ℕ × TypeRow) };

    ghost use Rattle.std.specs.Prelude.{◌≡◌};
    ghost use Rattle.stream_core.specs.Repairing.{ArePrimaries, ArePlaces, claims_in};

    ghost view = { λ t. t.rows.entries };

    ghost invariant = { λ t. ArePrimaries t.primaries t.rows.entries × ArePlaces t.places t.rows.entries × (t.claims.items ≡ claims_in t.rows.entries) };
}

/// Under each type the first one whose packets have repairs of it. The time grows with the number
/// of types.
fn primaries_of(rows: &IndexMap<Pt, TypeRow>) -> [Option<Pt>; 256]
    ensures { ArePrimaries result rows.now.entries }
{
    let mut primaries = [None; 256];
    for place in 0..rows.len() {
        let row = rows[place];
        if let Some(rtx) = row.rtx {
            let at = usize::from(u8::from(rtx));
            if primaries[at].is_none() {
                primaries[at] = Some(row.pt);
            }
        }
    }
    primaries
}

/// Puts a row in the place of the one with its number, or behind the others, and its claim beside
/// it.
fn put_row(
    rows: &mut IndexMap<Pt, TypeRow>,
    claims: &mut Vec<TypeClaim>,
    row: TypeRow,
) -> Result<(), AllocError>
    requires { claims.old.items ≡ claims_in rows.old.entries }
    ensures rows { OnOk result (rows.new.entries ≡ insert_entry nat_eq rows.old.entries row.pt row) }
    ensures claims { OnOk result (claims.new.items ≡ claims_in rows.new.entries) }
    ensures err { OnErr result ((rows.new.entries ≡ rows.old.entries) × (claims.new.items ≡ claims.old.items)) }
{
    if let Some(place) = rows.get_index_of(&row.pt) {
        rows.insert(row.pt, row)?;
        claims[place] = row.claim();
        return Ok(());
    }
    let len = claims.len();
    claims.push(row.claim())?;
    match rows.insert(row.pt, row) {
        Ok(_) => Ok(()),
        Err(error) => {
            claims.truncate(len);
            Err(AllocError::from(error))
        }
    }
}

impl PayloadTypes {
    /// No types.
    pub fn new(alloc: Global) -> Self
        ensures { result ≡ [] }
    {
        PayloadTypes {
            rows: IndexMap::new(alloc),
            primaries: [None; 256],
            places: [None; 256],
            claims: Vec::new(alloc),
        }
    }

    /// Adds a type, or puts it in the place of the one with its number. Without memory nothing
    /// changes. The time grows with the number of types.
    pub fn add(&mut self, row: TypeRow) -> Result<(), AllocError>
        ensures ok { OnOk result (self.new ≡ insert_entry nat_eq self.old row.pt row) }
        ensures err { OnErr result (self.new ≡ self.old) }
    {
        put_row(&mut self.rows, &mut self.claims, row)?;
        self.primaries = primaries_of(&self.rows);
        self.places[usize::from(u8::from(row.pt))] = self.rows.get_index_of(&row.pt);
        Ok(())
    }

    /// How many types there are.
    pub fn len(&self) -> usize
        ensures { result ≡ length self.now }
    {
        self.rows.len()
    }

    /// Whether there are no types.
    pub fn is_empty(&self) -> bool
        ensures { result ≡ (length self.now == 0) }
    {
        self.rows.is_empty()
    }

    /// The numbers, each with its type, one after another.
    pub fn iter(&self) -> Iter<'_, Pt, TypeRow>
        ensures rest { result ≡ self.now }
        ensures runs { ShowsInOrder (deref_pair {K = ℕ} {X = Row}) }
    {
        self.rows.iter()
    }

    /// Where the row of a type stands: one look-up in an array.
    fn place(&self, pt: Pt) -> Option<usize>
        ensures place { result ≡ place_of pt self.now }
        ensures within { IfSome result (λ i. i < length self.now) }
    {
        self.places[usize::from(u8::from(pt))]
    }

    /// Whether a type is one of them: one look-up in an array.
    pub fn has(&self, pt: Pt) -> bool
        ensures { result ≡ is_some (place_of pt self.now) }
    {
        self.place(pt).is_some()
    }

    /// The type of repairs of a type's packets: one look-up in an array.
    pub fn rtx(&self, pt: Pt) -> Option<Pt>
        ensures { result ≡ rtx_type_of self.now pt }
    {
        let place = self.place(pt)?;
        self.rows[place].rtx
    }

    /// The clock of a type's RTP times: one look-up in an array.
    pub fn clock(&self, pt: Pt) -> Option<Frequency>
        ensures { result ≡ clock_under self.now pt }
    {
        let place = self.place(pt)?;
        Some(self.rows[place].clock)
    }

    /// The types as claims, in the order in which they were added.
    pub fn claims(&self) -> &[TypeClaim]
        ensures { result.now ≡ claims_in self.now }
    {
        self.claims.as_slice()
    }

    /// The first type whose packets have repairs of a type: one look-up in an array. None where it
    /// is no type of repairs.
    pub fn primary(&self, pt: Pt) -> Option<Pt>
        ensures { result ≡ primary_type_of self.now pt }
    {
        self.primaries[usize::from(u8::from(pt))]
    }
}
