// Path templates, and their URI forms.
ghost use Rattle.std.specs.Prelude.{◌≡◌, ◌==◌, ◌↔◌, true, IfOk, IfSome, IsTrue};
ghost use Rattle.std.specs.Cmp.{partial_equiv_from_equiv};
ghost use Rattle.std.specs.Cmp.Lexicographic.{pointwise, nat_list_eq_equiv};
ghost use Rattle.std.specs.Cmp.Rules.{hashing};
ghost use Rattle.std.specs.Hash as fed;
ghost use Rattle.std.specs.List.{list_all, list_any};
ghost use Rattle.std.proofs.Common.{rules};
ghost use Rattle.mesh_policy.specs.Template as form;

use mesh_text::{Memory, Text};
use std::alloc::Global;
use std::hash::{Hash, Hasher};
use std::marker::Model;

/// A path template (Istio reference, Authorization Policy, `paths` of an Operation; Envoy reference,
/// UriTemplateMatchConfig). Contracts see it as its URI form, in which `{*}` is written `*`, and `{**}` is
/// written `**`.
#[derive(Debug, Drop)]
pub struct Template {
    uri: Text,
}

impl Model for Template {
    ghost use Rattle.std.specs.Prelude.{◌≡◌, true, List, ℕ};
    ghost use Rattle.mesh_policy.specs.Template.{is_uri};

    ghost Value = { List ℕ };

    ghost view = { λ t. t.uri };

    ghost invariant = { λ t. is_uri t.uri ≡ true };
}

impl Template {
    /// Whether a text is a template of a policy: it begins with `/` and has an operator; each operator is a whole
    /// segment, `{**}` is the last of them, and the other segments hold none of `*`, `{` and `}`. It takes no memory.
    pub fn is_template(s: &str) -> bool
        ensures { result ≡ form.is_template s.now }
    {
        is_form(s, "{*}", "{**}")
    }

    /// Reads a template of a policy. None where the text isn't one, by `is_template`.
    pub fn parse(alloc: Global, s: &str) -> Result<Option<Template>, Memory>
        ensures value { IfOk result (λ t. t ≡ form.template_of s.now) }
        ensures pieces { IfOk result (λ t. IfSome t (λ uri. form.uri_pieces uri ≡ form.template_pieces s.now)) }
    {
        if !Template::is_template(s) {
            return Ok(None);
        }
        let uri = uri_of(alloc, s)?;
        Ok(Some(Template { uri }))
    }

    /// Reads a URI form, as `as_uri` shows it. None where the text isn't one.
    pub fn from_uri(alloc: Global, s: &str) -> Result<Option<Template>, Memory>
        ensures { IfOk result (λ t. t ≡ form.template_of_uri s.now) }
    {
        if !is_form(s, "*", "**") {
            return Ok(None);
        }
        let uri = Text::of(alloc, s)?;
        Ok(Some(Template { uri }))
    }

    /// The URI form, by which `from_uri` reads the same template again. It takes no memory.
    pub fn as_uri(&self) -> &str
        ensures value { result.now ≡ self.now }
        ensures form { form.is_uri self.now ≡ true }
    {
        self.uri.as_str()
    }

    /// The URI form as a text of its own.
    pub fn to_uri(&self, alloc: Global) -> Result<Text, Memory>
        ensures { IfOk result (λ t. t ≡ self.now) }
    {
        self.uri.copy(alloc)
    }

    /// An equal template of its own.
    pub fn copy(&self, alloc: Global) -> Result<Template, Memory>
        ensures { IfOk result (λ t. t ≡ self.now) }
    {
        let uri = self.uri.copy(alloc)?;
        Ok(Template { uri })
    }

    /// Whether it holds for a path without query and fragment, as `path_of` cuts it: `{*}` stands for a segment that is
    /// not empty, and `{**}` for any text. It takes no memory, and looks at no byte more than a few times, since what
    /// follows `{**}` is plain.
    pub fn matches(&self, path: &str) -> bool
        ensures value { result ≡ form.template_holds self.now path.now }
        ensures means { IsTrue result ↔ form.TemplateHolds (form.uri_pieces self.now) path.now }
    {
        segments_hold(self.as_uri(), path)
    }
}

impl PartialEq for Template {
    ghost eq = { pointwise ◌==◌ };

    ghost laws = { partial_equiv_from_equiv nat_list_eq_equiv };

    fn eq(&self, other: &Template) -> bool {
        self.as_uri() == other.as_uri()
    }
}

impl Eq for Template {
    ghost laws = { nat_list_eq_equiv };
}

impl Hash for Template {
    ghost hash_input = { fed.str };

    ghost respects_eq = { Prim.search (hashing, rules) };

    fn hash<H: Hasher>(&self, state: &mut H) {
        self.as_uri().hash(state);
    }
}

fn segments_hold(uri: &str, path: &str) -> bool
    ensures { result ≡ form.template_holds uri.now path.now }
{
    let mut segments = uri;
    let mut rest = path;
    'segments: while let Some((segment, more)) = segments.split_once('/') {
        if segment == "**" {
            let end = &segments.as_bytes()[segment.len()..];
            return rest.as_bytes().ends_with(end);
        }
        let Some((part, after)) = rest.split_once('/') else {
            return false;
        };
        if !stands_for(segment, part) {
            return false;
        }
        segments = more;
        rest = after;
    }
    segments == "**" || stands_for(segments, rest)
}

fn stands_for(segment: &str, part: &str) -> bool
    ensures { result ≡ form.stands_for segment.now part.now }
{
    if segment == "*" {
        !part.is_empty() && !has_slash(part)
    } else {
        segment == part
    }
}

fn has_slash(part: &str) -> bool
    ensures { result ≡ form.has_slash part.now }
{
    part.as_bytes().contains(&b'/')
}

// whether a text is a template with its operators written like this
fn is_form(s: &str, one: &str, any: &str) -> bool
    ensures { result ≡ form.is_form one.now any.now s.now }
{
    begins_with_slash(s)
        && all_segments(s, one, any)
        && has_operator(s, one, any)
        && any_is_last(s, one, any)
}

fn begins_with_slash(s: &str) -> bool
    ensures { result ≡ form.begins_with_slash s.now }
{
    let bytes = s.as_bytes();
    !bytes.is_empty() && bytes[0] == b'/'
}

fn all_segments(s: &str, one: &str, any: &str) -> bool
    ensures { result ≡ list_all (form.is_segment one.now any.now) (form.segments_of s.now) }
{
    s.split('/').all(|segment| is_segment(segment, one, any))
}

fn is_segment(segment: &str, one: &str, any: &str) -> bool
    ensures { result ≡ form.is_segment one.now any.now segment.now }
{
    is_operator(segment, one, any) || is_plain(segment.as_bytes())
}

fn is_plain(segment: &[u8]) -> bool
    ensures { result ≡ form.is_plain segment.now }
{
    segment
        .iter()
        .all(|c| !(*c == b'*' || *c == b'{' || *c == b'}'))
}

fn has_operator(s: &str, one: &str, any: &str) -> bool
    ensures { result ≡ list_any (form.is_operator one.now any.now) (form.segments_of s.now) }
{
    s.split('/').any(|segment| is_operator(segment, one, any))
}

fn is_operator(segment: &str, one: &str, any: &str) -> bool
    ensures { result ≡ form.is_operator one.now any.now segment.now }
{
    segment == one || segment == any
}

fn any_is_last(s: &str, one: &str, any: &str) -> bool
    ensures { result ≡ form.any_is_last one.now any.now (form.segments_of s.now) }
{
    let mut rest = s;
    'segments: while let Some((segment, more)) = rest.split_once('/') {
        if segment == any {
            return !has_operator(more, one, any);
        }
        rest = more;
    }
    true
}

fn uri_of(alloc: Global, s: &str) -> Result<Text, Memory>
    ensures { IfOk result (λ t. t ≡ form.uri_of s.now) }
{
    let mut uri = String::new(alloc);
    let mut rest = s;
    'segments: while let Some((segment, more)) = rest.split_once('/') {
        uri.push_str(uri_segment(segment))?;
        uri.push_str("/")?;
        rest = more;
    }
    uri.push_str(uri_segment(rest))?;
    Ok(Text::from_string(uri))
}

fn uri_segment(segment: &str) -> &str
    ensures { result.now ≡ form.uri_segment segment.now }
{
    if segment == "{*}" {
        "*"
    } else if segment == "{**}" {
        "**"
    } else {
        segment
    }
}
