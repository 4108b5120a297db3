//! Names and values, as forms write them.
ghost use Rattle.std.specs.Prelude.{◌≡◌, ◌++◌, find, bytes_eq, string_bytes, option_copied, option_map, IfOk, OnOk};
ghost use Rattle.wk_form.specs.Parameters.{texts, pairs_in, parameters, first_value};

use std::alloc::Global;
use std::marker::Model;
use wk_memory::Memory;

/// Appends the pairs that the bytes hold.
fn append_pairs(
    alloc: Global,
    bytes: &[u8],
    pairs: &mut Vec<(String, String)>,
) -> Result<(), Memory>
    ensures { OnOk result (texts pairs.new.items ≡ texts pairs.old.items ++ pairs_in bytes.now) }
{
    for pair in form_urlencoded::parse(alloc, bytes).into_owned() {
        pairs.push(pair?)?;
    }
    Ok(())
}

/// The first pair of a name.
fn find_pair<'a>(pairs: &'a [(String, String)], name: &str) -> Option<&'a (String, String)>
    ensures { option_copied result ≡ find (λ pair. bytes_eq (string_bytes pair.0) name.now) pairs.now }
{
    pairs.iter().find(|pair| pair.0.as_str() == name)
}

/// The parameters of a request, in order: those of the query, then those of the body (own).
///
/// They are read as the URL Standard reads forms, section 5.1. What isn't UTF-8 becomes U+FFFD.
#[derive(Drop)]
pub struct Params {
    pairs: Vec<(String, String)>,
}

impl Model for Params {
    ghost use Rattle.wk_form.specs.Parameters.{Parameters, texts};

    ghost Value = { Parameters };

    ghost view = { λ p. texts p.pairs.items };
}

impl Params {
    /// The parameters in a query, which stands without its question mark, and a body.
    pub fn read(alloc: Global, query: &[u8], body: &[u8]) -> Result<Params, Memory>
        ensures { IfOk result (λ params. params ≡ parameters query.now body.now) }
    {
        let mut pairs = Vec::new(alloc);
        append_pairs(alloc, query, &mut pairs)?;
        append_pairs(alloc, body, &mut pairs)?;
        Ok(Params { pairs })
    }

    /// The first value of a name, or `None` where no parameter has it. Takes no memory.
    pub fn get(&self, name: &str) -> Option<&str>
        ensures { option_map (λ value. value.now) result ≡ first_value name.now self.now }
    {
        match find_pair(&self.pairs, name) {
            Some(pair) => Some(pair.1.as_str()),
            None => None,
        }
    }
}
