//! What a printed certificate is worth to its reader, as laws.

ghost use Rattle.std.specs.Prelude.{◌≡◌, ◌^◌, ◌/◌, ◌≤◌, ℕ, ℤ, pos, IsTrue, List, length, All, Option, IfSome};
ghost use Rattle.std.specs.Prelude.{IsSome, Some, Ok, slice_get};
ghost use Rattle.line_form.specs.Name.{is_name};
ghost use Rattle.price_base.specs.declared.Cell.{Cell};
ghost use Rattle.denton_parts.specs.Benchmarks.{MeetsBenchmarks};
ghost use Rattle.denton_parts.specs.Changes.{changes};
ghost use Rattle.denton_parts.specs.Gap.{gap_by};
ghost use Rattle.dual_cert.specs.declared.document.CertDoc.{CertDoc};
ghost use Rattle.dual_cert.specs.Document.{IsDocument};
ghost use Rattle.dual_cert.specs.Verdict.{MeetsAll, gap_of_document};
ghost use Rattle.cert_read.specs.Reading.{reading, content_of as content_of_document};
ghost use Rattle.series_tables.specs.Plan.{PlanShape, plan_of};
ghost use Rattle.series_tables.specs.Ranges.{IsPositiveInRange, IsBenchmarkOrNone};
ghost use Rattle.input_rules.specs.Accepted.{accepted};
ghost use Rattle.node_compile.specs.Laws.{numbers_in};
ghost use Rattle.node_compile.specs.Leaf.{leaf_table};
ghost use Rattle.node_compile.specs.Release.{compilation};
ghost use Rattle.node_compile.specs.Table.{Certificate, Table, years_of_certificate};
ghost use Rattle.release_print.specs.Certificate.{certificate_or_none, content_of};
ghost use Rattle.qna_laws.specs.Certificates.{IsReadAndTrue, IsFoundTrue};

use period_keys::written_is_read;
use series_tables::spelled_plans_are_plans;

/// The printed certificate of a leaf with benchmarked years, its numbers in range, is read as what it says: the name,
/// the front, the scale, the start year, the indicators, the benchmarks, the values, the multipliers and the gap.
pub fn printed_certificate_is_read()
    ensures { (start front : ℕ) (name : List ℕ) (certificate : Certificate) (values : List Cell) →
        IsDocument name front certificate.scale start certificate.places certificate.indicators
        certificate.benchmarks (numbers_in values) certificate.multipliers certificate.gap
        → reading (certificate_or_none start name front (Some certificate) values)
        ≡ Ok (content_of start name front certificate values) }
{
    written_is_read();
}

/// Where the values of a certificate meet its benchmarks and its gap is that of its numbers, a document that says the
/// same is one of which a check says yes.
pub fn printed_certificate_is_true()
    ensures { (doc : CertDoc) (start front : ℕ) (name : List ℕ)
        (certificate : Certificate) (values : List Cell) →
        content_of_document doc ≡ content_of start name front certificate values
        → MeetsBenchmarks (years_of_certificate certificate) (pos 1) (numbers_in values)
        → certificate.gap
        ≡ gap_by (pos (10 ^ certificate.scale)) certificate.indicators (numbers_in values)
        (changes (years_of_certificate certificate) certificate.multipliers certificate.indicators)
        → MeetsAll doc × (doc.gap ≡ gap_of_document doc) }
{}

/// The printed certificate of a compiled leaf is read and true: for any indicators and benchmarks in range, at most 256
/// quarters of them, any prices and reference year, a name, a start year from 1900 to 2200 and a front up to 262144,
/// the certificate of the leaf's table, where a year is benchmarked, is read as what it says, and a document that says
/// the same is one of which a check says yes.
pub fn compiled_certificate_is_true()
    ensures { (indicators : List ℕ) (prices : List (Option ℕ)) (benchmarks : List (Option ℤ))
        (reference : ℕ) (name : List ℕ) (start front : ℕ) →
        All IsPositiveInRange indicators → All IsBenchmarkOrNone benchmarks
        → length benchmarks ≡ length indicators / 4 → length indicators ≤ 256
        → IsTrue (is_name name) → 1900 ≤ start → start ≤ 2200 → front ≤ 262144
        → IfSome (leaf_table indicators prices benchmarks reference).leaf (λ certificate.
        IsReadAndTrue start name front certificate
        (leaf_table indicators prices benchmarks reference).value) }
{
    printed_certificate_is_read();
    printed_certificate_is_true();
}

/// For every plan that a text spells and every text of inputs: where an item has a certificate in the compilation of
/// the accepted inputs, a check of the certificate that is printed for it finds yes, and the certificate says the
/// years, the scale and the gap that the release shows.
pub fn accepted_certificates_are_found_true()
    ensures { (spelled text : List ℕ) (plan : PlanShape) (item : ℕ) (table : Table) →
        plan_of spelled ≡ Ok plan
        → slice_get (compilation plan (accepted plan text)) item ≡ Some table
        → IsSome table.leaf
        → IsFoundTrue plan (length (accepted plan text)) item table }
{
    spelled_plans_are_plans();
    written_is_read();
}
