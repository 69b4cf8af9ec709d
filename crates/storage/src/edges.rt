// The stored edges: what is read of them, and what makes and changes them. No other file knows where they stand. The rows of bytes
// stand in two arrays, so that `ends`, which no visit changes, is lent to read only: in one struct with the rest, each contract of the
// walks would have to say that it is as it was. Rows and no array of edges: who asks all marks or all producers goes along one row. A field
// for each row would spare the offsets here alone: no other code has one.
ghost use Rattle.std.specs.Prelude.{◌≡◌, List, [], ◌∷◌, ◌++◌, ℕ, ◌+◌, ◌≤◌, ◌<◌, length, get_or, drop, set};
ghost use Rattle.plan.specs.Refusals.{option_of};
ghost use Rattle.plan.specs.Visit.{is_out_of};
ghost use Rattle.storage.specs.Edges.{byte_of, mark, stored_edge, stored_edges, made, loosened_if, produced_if, EdgeChanged};

use plan::choice::pick;
use plan::sizes::size;

// The step that consumes edge k.
pub fn consumer_of(ends: &[u8; 544], k: usize) -> u8
    requires { k < 256 }
    ensures { (edges : List ℕ) → result ≡ (stored_edge ends.now edges k).consumer }
{
    ends[k]
}

// Its slot there. One function of a row's offset would have callers know where the rows stand.
pub fn slot_of(ends: &[u8; 544], k: usize) -> u8
    requires { k < 256 }
    ensures { (edges : List ℕ) → result ≡ (stored_edge ends.now edges k).slot }
{
    ends[256 + k]
}

// The functions of bytes and a place ask only that the place is there, which is less than Edges does.

// The byte of an edge that no step produces: an edge into a removed sort. Here alone it stands for none, as in `producer_of` of
// specs/Edges, which says what the bytes are.
const NONE: u8 = 255;

// The step that produces edge k, if there is one.
pub fn producer_of(edges: &[u8; 512], k: usize) -> Option<u8>
    requires { k < 256 }
    ensures { (ends : List ℕ) → option_of result ≡ (stored_edge ends edges.now k).producer }
{
    let p = edges[k];
    if p == NONE { None } else { Some(p) }
}

// Is it step n? A step's number is below 32, and so no byte of none. A type of such numbers would have to be made wherever a walk
// reads one.
pub fn is_out_of(edges: &[u8; 512], k: usize, n: u8) -> bool
    requires { (k < 256) × (n < 32) }
    ensures { (ends : List ℕ) → result ≡ is_out_of n (stored_edge ends edges.now k) }
{
    edges[k] == n
}

pub fn is_unordered(edges: &[u8; 512], k: usize) -> bool
    requires { k < 256 }
    ensures { result ≡ mark edges.now k }
{
    edges[256 + k] == 1
}

// The number of the first edge into step m.
pub fn first_into(ends: &[u8; 544], m: u8) -> u8
    requires { m < 32 }
    ensures { result ≡ get_or ends.now (512 + m) 0 }
{
    ends[512 + (m as usize)]
}

// Edge k is unordered, if it is loosened.
pub fn loosen_if(edges: &mut [u8; 512], k: usize, loosened: bool)
    requires { (k < 256) × (length edges.old ≡ 512) }
    ensures { ((ends : List ℕ) → EdgeChanged (loosened_if loosened) ends k edges.old edges.new) × (length edges.new ≡ 512) }
{
    let u = edges[256 + k];
    edges[256 + k] = pick(loosened, 1, u);
}

// Step p produces edge k, or none does, if it is handed on.
pub fn produce_if(edges: &mut [u8; 512], k: usize, handed_on: bool, p: Option<u8>)
    requires { (k < 256) × (length edges.old ≡ 512) }
    ensures { ((ends : List ℕ) → EdgeChanged (produced_if handed_on (byte_of p)) ends k edges.old edges.new) × (length edges.new ≡ 512) }
{
    let q = edges[k];
    edges[k] = pick(handed_on, p.unwrap_or(NONE), q);
}

// Edge k is made, behind those before it: from a step into a slot of another. It is ordered.
pub fn make_edge(
    ends: &mut [u8; 544],
    edges: &mut [u8; 512],
    k: usize,
    consumer: u8,
    slot: u8,
    producer: u8,
)
    requires { (k < 256) × (producer < 255) }
    ensures k_after { stored_edges ends.new edges.new (k + 1) ≡ stored_edges ends.old edges.old k ++ (made consumer slot producer ∷ []) }
    ensures ends_unchanged { drop 512 ends.new ≡ drop 512 ends.old }
{
    size(ends);
    size(edges);
    ends[k] = consumer;
    ends[256 + k] = slot;
    edges[k] = producer;
    edges[256 + k] = 0;
}

// The number of the first edge into step m is k.
pub fn store_first_into(ends: &mut [u8; 544], m: u8, k: u8)
    requires { m < 32 }
    ensures by_index { (edges : List ℕ) (n : ℕ) → n ≤ 256 → stored_edges ends.new edges n ≡ stored_edges ends.old edges n }
    ensures ends_after { drop 512 ends.new ≡ set (drop 512 ends.old) m k }
{
    size(ends);
    ends[512 + (m as usize)] = k;
}
