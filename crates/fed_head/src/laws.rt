//! Laws.
ghost use Rattle.std.specs.Prelude.{◌≡◌, ℕ, List, map, Some};
ghost use Rattle.httparse.specs.Grammar.{Field, LineEnd, ReadsSection, ChunkLine, ReadsChunkLine, chunk_size, ResponseHead, ReadsResponse};
ghost use Rattle.httparse.specs.Grammar.{status_code};
ghost use Rattle.fed_head.specs.Chunk.{size_line};
ghost use Rattle.fed_head.specs.Head.{HeadParts, head_of, IsHeadOf};
ghost use Rattle.fed_head.specs.Section.{FieldPair, section_of, field_pair};

/// A block of the grammar is read as its fields.
pub fn section_is_read()
    ensures { (buf : List ℕ) (fields : List Field) (last : LineEnd) (rest : List ℕ) → ReadsSection buf fields last rest
        → section_of buf ≡ Some (map field_pair fields, rest) }
{}

/// Bytes that are read begin with a block of the grammar.
pub fn section_is_there()
    ensures { (buf : List ℕ) (ps : List FieldPair) (rest : List ℕ) → section_of buf ≡ Some (ps, rest)
        → (fields : List Field) × (last : LineEnd) × ReadsSection buf fields last rest × (map field_pair fields ≡ ps) }
{}

/// A head of the grammar is read as its status, its fields and what follows.
pub fn head_is_read()
    ensures { (buf : List ℕ) (h : ResponseHead) (rest : List ℕ) → ReadsResponse buf h rest
        → head_of buf ≡ Some (record { status = status_code h; fields = map field_pair h.fields; rest = rest }) }
{}

/// Bytes that are read begin with a head of the grammar.
pub fn head_is_there()
    ensures { (buf : List ℕ) (found : HeadParts) → head_of buf ≡ Some found → IsHeadOf buf found }
{}

/// A size line of the grammar is read as its size and what follows.
pub fn size_line_is_read()
    ensures { (buf : List ℕ) (l : ChunkLine) (rest : List ℕ) → ReadsChunkLine buf l rest
        → size_line buf ≡ Some (chunk_size l, rest) }
{}

/// Bytes that are read begin with a size line of the grammar.
pub fn size_line_is_there()
    ensures { (buf rest : List ℕ) (size : ℕ) → size_line buf ≡ Some (size, rest)
        → (l : ChunkLine) × ReadsChunkLine buf l rest × (size ≡ chunk_size l) }
{}
