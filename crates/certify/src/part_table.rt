//! A table of the parts of a side, by what a report names them by.

ghost use Rattle.std.specs.Prelude.{◌≡◌, ◌<◌, ◌≤◌, ◌++◌, ℕ, List, All, None, IfOk, OnErr, OnOk, length};
ghost use Rattle.stream_case.specs.Case.{IsSourceOf};
ghost use Rattle.stream_case.specs.declared.limits.TheConstants.{MOST_PARTS};
ghost use Rattle.certify.specs.Answers.{span_of};
ghost use Rattle.certify.specs.Table.{IsTableOf, IsWithSpan, bytes_of_parts, bytes_of_span, index_in};
ghost use Rattle.indexmap.specs.IndexMap.{hasher_of};
ghost use Rattle.keyed_index.specs.Key.{begun_by, keyed_by};
ghost use Rattle.sha2.specs.Hashers.{Holds256};

use crate::report::Span;
use grid::Part;
use indexmap::IndexMap;
use keyed_index::{KeyedMap, TextKey};
use sha2::{Digest, Sha256};
use std::alloc::{AllocError, Global};
use stream_case::Case;

/// The index of the first part with each span.
pub type PartTable = KeyedMap<Span, u32>;

/// A part as a report names it.
fn span_of(case: &Case, part: &Part) -> Span
    requires { IsSourceOf case.now part.now.source }
    ensures { result ≡ span_of case.now part.now }
{
    Span {
        name: case.name_of(part.source),
        high: part.high,
        low: part.low,
    }
}

/// Adds the bytes of a span to a digest.
fn digest_span(digest: &mut Sha256, span: &Span)
    ensures { (bytes : List ℕ) → Holds256 digest.old bytes
        → Holds256 digest.new (bytes ++ bytes_of_span span.now) }
{
    digest.update(span.name.as_bytes());
    digest.update(span.high.to_le_bytes());
    digest.update(span.low.to_le_bytes());
}

/// The key of a table of these parts, drawn from all their spans: the table is fixed by it, and
/// what a report looks up in it cannot make it worse.
fn key_of(case: &Case, parts: &[Part]) -> TextKey
    requires { All (λ p. IsSourceOf case.now p.source) parts.now }
    ensures { begun_by result ≡ keyed_by (bytes_of_parts case.now parts.now) }
{
    let mut digest = Sha256::new();
    for part in parts {
        let span = span_of(case, part);
        digest_span(&mut digest, &span);
    }
    TextKey::of_digest(digest)
}

/// Adds the span of a part. A span that is there keeps its index, and takes no memory.
fn add_span(table: &mut PartTable, span: Span, index: u32) -> Result<(), AllocError>
    ensures added { OnOk result (IsWithSpan span index table.old table.new) }
    ensures key { hasher_of table.new ≡ hasher_of table.old }
    ensures memory { OnErr result (index_in table.old span ≡ None) }
{
    if table.contains_key(&span) {
        return Ok(());
    }
    table.insert(span, index)?;
    Ok(())
}

/// The table of these parts, under the key that is drawn from all their spans.
pub fn table_of(alloc: Global, case: &Case, parts: &[Part]) -> Result<PartTable, AllocError>
    requires few { length parts.now ≤ MOST_PARTS }
    requires sources { All (λ p. IsSourceOf case.now p.source) parts.now }
    ensures table { IfOk result (IsTableOf case.now parts.now) }
    ensures key { IfOk result (λ table. begun_by (hasher_of table) ≡
        keyed_by (bytes_of_parts case.now parts.now)) }
    ensures memory { OnErr result (0 < length parts.now) }
{
    let mut table = IndexMap::with_hasher(alloc, key_of(case, parts));
    for (index, part) in parts.iter().enumerate() {
        let span = span_of(case, part);
        add_span(&mut table, span, index as u32)?;
    }
    Ok(table)
}

/// The index of the part that a report names.
pub fn index_in(table: &PartTable, span: &Span) -> Option<u32>
    ensures { result ≡ index_in table.now span.now }
{
    table.get(span).copied()
}
