//! Why parameters ask nothing.
ghost use Rattle.std.specs.Prelude.{◌≡◌, Some};
ghost use Rattle.wk_request_rules.specs.Requests.{number_of_refusal, parameter_of_refusal};
ghost use Rattle.wk_request.specs.Refusals.{refusal_of, told};
ghost use Rattle.wk_request.specs.declared.refusal.RequestRefusal.TheVariants.{Memory as NoMemory};

use std::alloc::AllocError;
use thiserror::Error;
use wk_memory::Memory;

/// Why a request can't be read.
#[derive(Clone, Copy, Debug, PartialEq, Eq, Error)]
pub enum RequestRefusal {
    /// The parameters ask nothing.
    #[error("refusal {number} of the parameters, at '{parameter}'")]
    Refused {
        /// The place of the refusal in the order of the checks, from 1 to 6 (own): 1 the action, or the list, prop or
        /// meta of a query, is missing or unknown; 2 an edit or a deletion isn't posted; 3 its token isn't `+\`; 4 the
        /// title is missing; 5 the text is missing; 6 a parameter isn't the whole number that it must be.
        number: u8,
        /// The parameter that it is about; empty with the numbers 2, 3 and 5.
        parameter: &'static str,
    },
    /// Memory ran out, which may come at any parameters.
    #[error("out of memory")]
    Memory,
}

impl From<Memory> for RequestRefusal {
    ghost from_gives = { λ _ refusal. refusal ≡ NoMemory };

    fn from(_: Memory) -> RequestRefusal {
        RequestRefusal::Memory
    }
}

/// A check that parameters fail, in the order of the checks.
#[derive(Clone, Copy)]
pub enum Refusal {
    /// The parameter names no module.
    BadValue(&'static str),
    /// A page is to be saved, and the request isn't posted.
    MustBePosted,
    /// A page is to be saved, and the token isn't that of an edit.
    BadToken,
    /// The parameter with the title is missing.
    NoTitle(&'static str),
    /// The text is missing.
    NoText,
    /// The parameter isn't such a number.
    BadInteger(&'static str),
}

impl Refusal {
    fn number(self) -> u8
        ensures { result ≡ number_of_refusal (refusal_of self) }
    {
        match self {
            Refusal::BadValue(_) => 1,
            Refusal::MustBePosted => 2,
            Refusal::BadToken => 3,
            Refusal::NoTitle(_) => 4,
            Refusal::NoText => 5,
            Refusal::BadInteger(_) => 6,
        }
    }

    fn parameter(self) -> &'static str
        ensures { result.now ≡ parameter_of_refusal (refusal_of self) }
    {
        match self {
            Refusal::BadValue(parameter)
            | Refusal::NoTitle(parameter)
            | Refusal::BadInteger(parameter) => parameter,
            Refusal::MustBePosted | Refusal::BadToken | Refusal::NoText => "",
        }
    }

    /// The refusal by its number and its parameter.
    pub fn told(self) -> RequestRefusal
        ensures { told result ≡ Some (number_of_refusal (refusal_of self), parameter_of_refusal (refusal_of self)) }
    {
        RequestRefusal::Refused {
            number: self.number(),
            parameter: self.parameter(),
        }
    }
}
