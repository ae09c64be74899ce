// Header matchers.
ghost use Rattle.std.specs.Prelude.{◌≡◌, IfOk};
ghost use Rattle.std.specs.Option.{option_copied};
ghost use Rattle.mesh_policy.specs.Token as token;
ghost use Rattle.envoy_types.specs.Headers as meaning;
ghost use Rattle.envoy_types.specs.State.{holds_of};

use crate::strings::StringMatcher;
use crate::words::{AUTHORITY_HEADER, METHOD_HEADER, PATH_HEADER};
use mesh_policy::{Header, Request};
use mesh_text::{Memory, Text, eq_fold};
use std::alloc::Global;

/// A test of a header, or of the method, authority or path of a request by its pseudo-header (Envoy v3 API,
/// `config.route.v3.HeaderMatcher`).
#[derive(Debug, Drop, PartialEq, Eq, Hash)]
pub struct HeaderMatch {
    /// A name in lower case, or `:method`, `:authority` or `:path`.
    pub name: Text,
    pub test: HeaderTest,
}

/// What is asked of a header.
#[derive(Debug, Drop, PartialEq, Eq, Hash)]
pub enum HeaderTest {
    /// That it is there (`present_match`).
    Present,
    /// That it is there, and its value matches (`string_match`).
    Words(StringMatcher),
}

impl HeaderMatch {
    /// Whether it holds for the request that is judged. Without one it never does. It takes no memory.
    pub fn holds(&self, request: Option<&Request>) -> bool
        ensures { result ≡ holds_of (meaning.header_holds self.now) (option_copied request.entry) }
    {
        match request {
            None => false,
            Some(request) => self.test.holds(header_value(&self.name, request)),
        }
    }

    /// An equal matcher of its own.
    pub fn copy(&self, alloc: Global) -> Result<HeaderMatch, Memory>
        ensures { IfOk result (λ h. h ≡ self.now) }
    {
        Ok(HeaderMatch {
            name: self.name.copy(alloc)?,
            test: self.test.copy(alloc)?,
        })
    }
}

impl HeaderTest {
    /// Whether it holds for the value of a header, which may be absent. It takes no memory.
    pub fn holds(&self, value: Option<&str>) -> bool
        ensures { result ≡ meaning.test_holds self.now (option_copied value.entry) }
    {
        match self {
            HeaderTest::Present => value.is_some(),
            HeaderTest::Words(matcher) => match value {
                None => false,
                Some(value) => matcher.holds(value),
            },
        }
    }

    /// An equal test of its own.
    pub fn copy(&self, alloc: Global) -> Result<HeaderTest, Memory>
        ensures { IfOk result (λ t. t ≡ self.now) }
    {
        match self {
            HeaderTest::Present => Ok(HeaderTest::Present),
            HeaderTest::Words(matcher) => Ok(HeaderTest::Words(matcher.copy(alloc)?)),
        }
    }
}

fn header_value<'a>(name: &str, request: &'a Request) -> Option<&'a str>
    ensures { option_copied result ≡ meaning.header_value name.now request.now }
{
    if name == METHOD_HEADER {
        Some(request.method.as_str())
    } else if name == AUTHORITY_HEADER {
        authority(request)
    } else if name == PATH_HEADER {
        Some(request.path.as_str())
    } else {
        value_of(name, &request.headers)
    }
}

fn authority(request: &Request) -> Option<&str>
    ensures { option_copied result ≡ request.now.authority }
{
    match &request.authority {
        None => None,
        Some(authority) => Some(authority.as_str()),
    }
}

// the first header of the name
fn value_of<'a>(name: &str, headers: &'a [Header]) -> Option<&'a str>
    ensures { option_copied result ≡ token.value_of name.now headers.now }
{
    for header in headers {
        if eq_fold(&header.name, name) {
            return Some(header.value.as_str());
        }
    }
    None
}
