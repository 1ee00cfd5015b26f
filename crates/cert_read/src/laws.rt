//! What is read of a certificate, as a law.

ghost use Rattle.std.specs.Prelude.{◌≡◌, List, ℕ, map, Some, Ok, true};
ghost use Rattle.line_form.specs.Lines.{lines_of};
ghost use Rattle.dual_cert.specs.declared.document.CertDoc.{CertDoc};
ghost use Rattle.cert_read.specs.Statement.{Statement};
ghost use Rattle.cert_read.specs.Cutting.{cut_line};
ghost use Rattle.cert_read.specs.Content.{Content, HasRanges, is_in_range, spelled};
ghost use Rattle.cert_read.specs.Reading.{Placed, kept, reading, content_of};
ghost use Rattle.cert_read.specs.Cutting.{cut_placed, read_placed};

/// What spells a document is read as it, whatever lines that are passed over stand between.
#[tactic(auto, using(crate::proofs::Wholes::spelled_read))]
pub fn spelled_is_read()
    ensures { (text : List ℕ) (doc : CertDoc) →
        map (λ p. p.says) (kept (lines_of text)) ≡ map Some (spelled (content_of doc)) →
        reading text ≡ Ok (content_of doc) }
{}

/// What is read of a text is what its lines spell, but for those that are passed over.
#[tactic(auto, using(crate::proofs::Spelled::read_spelled))]
pub fn read_is_spelled()
    ensures { (text : List ℕ) (content : Content) → reading text ≡ Ok content →
        map (λ p. p.says) (kept (lines_of text)) ≡ map Some (spelled content) }
{}

/// The bound at which numbers are cut lies past every range: whatever the lines so far say, each number in range, the
/// next line's number is in range exactly where the number as it stands is, and is then that number.
#[tactic(auto, using(crate::proofs::Cuts::cuts))]
pub fn cut_is_past_ranges()
    ensures in_range { (d : Content) (s : Statement) → HasRanges d →
        is_in_range d (cut_line s) ≡ is_in_range d s }
    ensures same { (d : Content) (s : Statement) → HasRanges d → is_in_range d s ≡ true →
        cut_line s ≡ s }
{}

/// Whatever lines say, and wherever they stand, cutting their numbers changes nothing of what is read: neither the
/// content nor the first fault. So a document, and a number that is out of range, are those of the numbers as they
/// stand in the text.
#[tactic(auto, using(crate::proofs::Stands::cut_lines_read))]
pub fn cutting_changes_nothing()
    ensures { (missing : ℕ) (lines : List Placed) →
        read_placed missing (map cut_placed lines) ≡ read_placed missing lines }
{}
