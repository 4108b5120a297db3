//! Lines of a feed, one by one.
ghost use Rattle.std.specs.Prelude.{◌≡◌, ℕ, List, Some};
ghost use Rattle.wk_feed_rules.specs.Lines.{FeedLine, line_text};
ghost use Rattle.wk_feed_rules.specs.Reading.{said};
ghost use Rattle.wk_feed_laws.specs.Fits.{LineFits};

/// A line that is written is read back as what it says, where its numbers have 64 bits. And what is read of bytes is written as
/// these bytes: a line says one thing, and one line says it.
pub fn a_line_is_read_back()
    ensures written { (line : FeedLine) → LineFits line → said (line_text line) ≡ Some line }
    ensures only_so { (bytes : List ℕ) (line : FeedLine) → said bytes ≡ Some line → line_text line ≡ bytes }
{}
