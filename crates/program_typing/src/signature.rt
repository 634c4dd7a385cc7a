//! The signature of a subprogram, as its callers know it.
ghost use Rattle.std.specs.Prelude.{◌≡◌};

use spark_base::Listed;
use std::marker::Model;

/// The formals of a subprogram, and the type of its result where it is a function. Contracts see it
/// as a `Signature` of `flow_paths`.
#[derive(Drop)]
pub struct Signature {
    formals: Listed<u32>,
    result: Option<u32>,
}

impl Model for Signature {
    ghost use Rattle.flow_paths.specs.Objects.{Signature as Sub};

    ghost Value = { Sub };

    ghost view = { λ sub. record { formals = sub.formals; result = sub.result } };

    ghost inverse = { λ sub. record { formals = sub.formals; result = sub.result } };
}

impl Signature {
    /// The signature with these formals, in order, and this type of the result.
    pub fn new(formals: Listed<u32>, given: Option<u32>) -> Signature
        ensures { result ≡ record { formals = formals; result = given } }
    {
        Signature {
            formals,
            result: given,
        }
    }

    /// The numbers of the formals, in order.
    pub fn formals(&self) -> &[u32]
        ensures { result.now ≡ self.now.formals }
    {
        self.formals.as_slice()
    }

    /// The type of the result, of a function.
    pub fn result(&self) -> Option<u32>
        ensures { result ≡ self.now.result }
    {
        self.result
    }
}
