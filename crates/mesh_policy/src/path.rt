// The path of a request target.
ghost use Rattle.std.specs.Prelude.{◌≡◌, ◌==◌};
ghost use Rattle.std.specs.List.{before_first};
ghost use Rattle.mesh_text.specs.Bytes.{question};
ghost use Rattle.mesh_policy.specs.Path as target;

/// The path in a request target: what stands before its first `?` or `#` (RFC 3986, section 3.3). It is what the path
/// values of policies and the matchers of paths compare, and what `Template::matches` takes. It takes no memory.
pub fn path_of(path: &str) -> &str
    ensures { result.now ≡ target.path_of path.now }
{
    before_query(before_fragment(path))
}

// what stands before the first '#'
pub(crate) fn before_fragment(path: &str) -> &str
    ensures { result.now ≡ target.before_fragment path.now }
{
    match path.split_once('#') {
        None => path,
        Some((front, _)) => front,
    }
}

fn before_query(path: &str) -> &str
    ensures { result.now ≡ before_first (λ c. c == question) path.now }
{
    match path.split_once('?') {
        None => path,
        Some((front, _)) => front,
    }
}
