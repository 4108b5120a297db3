//! How an output shows an error.
ghost use Rattle.std.specs.Prelude.{◌≡◌, ◌&&◌, not, codes, is_some};
ghost use Rattle.wk_text_rules.specs.Shapes.{exactly, split_at_nearest};

fn holds_error_class(text: &str) -> bool
    ensures { result ≡ is_some (split_at_nearest (exactly (codes "class=\"error\"")) text.now) }
{
    text.contains("class=\"error\"")
}

/// Whether a run is plain and shows an error, as `#iferror` takes it (MediaWiki's Help:Extension:ParserFunctions): the
/// tag around the attribute isn't looked at (own).
pub fn shows_error(text: &str, sealed: bool) -> bool
    ensures { result ≡ (not sealed && is_some (split_at_nearest (exactly (codes "class=\"error\"")) text.now)) }
{
    !sealed && holds_error_class(text)
}
