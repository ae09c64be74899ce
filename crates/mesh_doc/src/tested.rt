//! The form of a text that has to pass a test.
ghost use Rattle.mesh_doc.specs.Kinds.{text_in};
ghost use Rattle.mesh_doc.specs.Tested.{tested};

use crate::{DocError, Form, Reason, Spot};
use mesh_text::Text;
use serde_json::Value;
use std::alloc::Global;
use std::marker::PhantomData;

/// A test of texts, and why a text that fails it is refused.
pub trait TextTest {
    ghost use Rattle.std.specs.Prelude.{◌≡◌, ℕ, Bool, List};
    ghost use Rattle.mesh_doc.specs.declared.reason.Reason.{Reason};

    ghost passes: { List ℕ → Bool };

    ghost reason: { Reason };

    fn passes(text: &str) -> bool
        ensures { result ≡ passes text.now };

    fn reason() -> Reason
        ensures { result ≡ reason };
}

/// A text that passes the test `T`: WrongType for another kind of value, and else the reason of the test.
pub struct Tested<T> {
    test: PhantomData<T>,
}

impl<T: TextTest> Form for Tested<T> {
    type Out = Text;

    ghost faults = { tested T.passes T.reason };

    ghost value = { text_in };

    #[tactic(auto, unfolding(crate::specs::Tested::tested, crate::specs::Kinds::text_faults, crate::specs::Kinds::text_in))]
    fn read(alloc: Global, v: &Value, at: &Spot) -> Result<Text, DocError> {
        let Value::String(text) = v else {
            return Err(at.refuse(alloc, Reason::WrongType));
        };
        if !T::passes(text.as_str()) {
            return Err(at.refuse(alloc, T::reason()));
        }
        Ok(Text::of(alloc, text.as_str())?)
    }
}
