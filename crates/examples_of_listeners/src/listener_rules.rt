// Filters of role-based access control that have every form of permissions and principals.
use call_lines::Stop;
use envoy_types::{
    HeaderMatch, HeaderTest, MatchKind, PermissionLeaf, PrincipalLeaf, Rbac, RbacAction,
    RbacPolicy, RbacRules, StringMatcher, ValueMatcher,
};
use mesh_net::{Cidr, parse_cidr};
use mesh_policy::Template;
use mesh_text::{List, Memory, Text};
use mesh_tree::{Node, Tree};
use std::alloc::Global;

/// With rules of two policies, shadow rules and a prefix.
pub fn request_rules(alloc: Global) -> Result<Rbac, Stop> {
    let first = policy(alloc, "B", permissions(alloc)?, sole(alloc, Tree::any())?)?;
    let second = policy(alloc, "a", sole(alloc, Tree::any())?, principals(alloc)?)?;
    let rules = two_policies(alloc, first, second)?;
    let shadow = no_policies(alloc, RbacAction::Log);
    Ok(filter(alloc, Some(rules), Some(shadow), "istio_ext_authz_")?)
}

/// With rules of one policy, shadow rules and a prefix.
pub fn network_rules(alloc: Global) -> Result<Rbac, Stop> {
    let port = Tree::leaf(PermissionLeaf::DestinationPort(9000));
    let known = Tree::leaf(PrincipalLeaf::Authenticated(None));
    let policy = policy(alloc, "", sole(alloc, port)?, sole(alloc, known)?)?;
    let rules = one_policy(alloc, policy)?;
    let shadow = no_policies(alloc, RbacAction::Deny);
    Ok(filter(alloc, Some(rules), Some(shadow), "p")?)
}

/// With rules alone.
pub fn logged(alloc: Global) -> Result<Rbac, Memory> {
    filter(alloc, Some(no_policies(alloc, RbacAction::Log)), None, "")
}

/// With shadow rules alone.
pub fn told(alloc: Global) -> Result<Rbac, Memory> {
    filter(alloc, None, Some(no_policies(alloc, RbacAction::Allow)), "")
}

/// With neither.
pub fn no_rules(alloc: Global) -> Result<Rbac, Memory> {
    filter(alloc, None, None, "")
}

fn filter(
    alloc: Global,
    rules: Option<RbacRules>,
    shadow: Option<RbacRules>,
    prefix: &str,
) -> Result<Rbac, Memory> {
    Ok(Rbac {
        rules,
        shadow,
        shadow_prefix: Text::of(alloc, prefix)?,
    })
}

fn no_policies(alloc: Global, action: RbacAction) -> RbacRules {
    RbacRules {
        action,
        policies: List::new(alloc),
    }
}

fn one_policy(alloc: Global, policy: RbacPolicy) -> Result<RbacRules, Memory> {
    let mut policies = List::new(alloc);
    policies.push(policy)?;
    Ok(RbacRules {
        action: RbacAction::Allow,
        policies,
    })
}

// They stand in byte order of their names.
fn two_policies(alloc: Global, first: RbacPolicy, second: RbacPolicy) -> Result<RbacRules, Stop> {
    if !(first.name < second.name) {
        return Err(Stop::Arguments);
    }
    let mut policies = List::new(alloc);
    policies.push(first)?;
    policies.push(second)?;
    Ok(RbacRules {
        action: RbacAction::Deny,
        policies,
    })
}

fn policy(
    alloc: Global,
    name: &str,
    permissions: List<Tree<PermissionLeaf>>,
    principals: List<Tree<PrincipalLeaf>>,
) -> Result<RbacPolicy, Memory> {
    Ok(RbacPolicy {
        name: Text::of(alloc, name)?,
        permissions,
        principals,
    })
}

// ---- trees

fn sole<L: Drop>(alloc: Global, tree: Tree<L>) -> Result<List<Tree<L>>, Memory> {
    let mut trees = List::new(alloc);
    trees.push(tree)?;
    Ok(trees)
}

fn push<L: Drop>(trees: &mut List<Tree<L>>, leaf: L) -> Result<(), Memory> {
    trees.push(Tree::leaf(leaf))
}

fn all_of<L: Drop>(parts: List<Tree<L>>) -> Result<Tree<L>, Stop> {
    if parts.is_empty() {
        return Err(Stop::Arguments);
    }
    Ok(Tree::from_node(Node::And(parts)))
}

fn one_of<L: Drop>(parts: List<Tree<L>>) -> Result<Tree<L>, Stop> {
    if parts.is_empty() {
        return Err(Stop::Arguments);
    }
    Ok(Tree::from_node(Node::Or(parts)))
}

// ---- matchers

fn words(
    alloc: Global,
    kind: MatchKind,
    text: &str,
    ignore_case: bool,
) -> Result<StringMatcher, Memory> {
    Ok(StringMatcher {
        kind,
        text: Text::of(alloc, text)?,
        ignore_case,
    })
}

fn is_there(alloc: Global, name: &str) -> Result<HeaderMatch, Memory> {
    Ok(HeaderMatch {
        name: Text::of(alloc, name)?,
        test: HeaderTest::Present,
    })
}

fn is_exactly(
    alloc: Global,
    name: &str,
    text: &str,
    ignore_case: bool,
) -> Result<HeaderMatch, Memory> {
    let matcher = words(alloc, MatchKind::Exact, text, ignore_case)?;
    Ok(HeaderMatch {
        name: Text::of(alloc, name)?,
        test: HeaderTest::Words(matcher),
    })
}

fn block(text: &str) -> Result<Cidr, Stop> {
    parse_cidr(text).ok_or(Stop::Arguments)
}

fn template(alloc: Global, uri: &str) -> Result<Template, Stop> {
    Template::from_uri(alloc, uri)?.ok_or(Stop::Arguments)
}

// ---- permissions

fn permissions(alloc: Global) -> Result<List<Tree<PermissionLeaf>>, Stop> {
    let mut trees = sole(alloc, Tree::any())?;
    trees.push(all_of(of_requests(alloc)?)?)?;
    trees.push(one_of(of_connections(alloc)?)?)?;
    // An entry that is a list of the same kind stays one entry.
    let inner = all_of(sole(alloc, Tree::any())?)?;
    trees.push(all_of(sole(alloc, inner)?)?)?;
    Ok(trees)
}

fn of_requests(alloc: Global) -> Result<List<Tree<PermissionLeaf>>, Stop> {
    let mut leaves = List::new(alloc);
    push_headers(alloc, &mut leaves)?;
    let front = words(alloc, MatchKind::Prefix, "/admin/", false)?;
    push(&mut leaves, PermissionLeaf::UrlPath(front))?;
    let folded = words(alloc, MatchKind::Prefix, "/API", true)?;
    push(&mut leaves, PermissionLeaf::UrlPath(folded))?;
    let uri = template(alloc, "/v1/*/items/**")?;
    push(&mut leaves, PermissionLeaf::UriTemplate(uri))?;
    Ok(leaves)
}

fn push_headers(alloc: Global, leaves: &mut List<Tree<PermissionLeaf>>) -> Result<(), Memory> {
    let path = is_there(alloc, ":path")?;
    push(leaves, PermissionLeaf::Header(path))?;
    let method = is_exactly(alloc, ":method", "GET", false)?;
    push(leaves, PermissionLeaf::Header(method))?;
    let host = is_exactly(alloc, ":authority", "Example.com:8080", true)?;
    push(leaves, PermissionLeaf::Header(host))?;
    let empty = is_exactly(alloc, "x-empty", "", false)?;
    push(leaves, PermissionLeaf::Header(empty))
}

fn of_connections(alloc: Global) -> Result<List<Tree<PermissionLeaf>>, Stop> {
    let mut leaves = List::new(alloc);
    push(
        &mut leaves,
        PermissionLeaf::DestinationIp(block("10.1.2.3/8")?),
    )?;
    push(
        &mut leaves,
        PermissionLeaf::DestinationIp(block("2001:DB8::1")?),
    )?;
    push(&mut leaves, PermissionLeaf::DestinationPort(65535))?;
    let end = words(alloc, MatchKind::Suffix, ".example.com", false)?;
    push(&mut leaves, PermissionLeaf::ServerName(end))?;
    let folded = words(alloc, MatchKind::Suffix, ".TEST", true)?;
    push(&mut leaves, PermissionLeaf::ServerName(folded))?;
    let port = Tree::leaf(PermissionLeaf::DestinationPort(0));
    leaves.push(Tree::not(alloc, port)?)?;
    Ok(leaves)
}

// ---- principals

fn principals(alloc: Global) -> Result<List<Tree<PrincipalLeaf>>, Stop> {
    let mut trees = sole(alloc, Tree::never(alloc)?)?;
    trees.push(all_of(of_peers(alloc)?)?)?;
    trees.push(one_of(of_claims(alloc)?)?)?;
    trees.push(one_of(sole(alloc, Tree::any())?)?)?;
    Ok(trees)
}

fn of_peers(alloc: Global) -> Result<List<Tree<PrincipalLeaf>>, Stop> {
    let mut leaves = List::new(alloc);
    push(&mut leaves, PrincipalLeaf::Authenticated(None))?;
    let namespace = words(alloc, MatchKind::Contains, "/ns/foo/sa/", false)?;
    push(&mut leaves, PrincipalLeaf::Authenticated(Some(namespace)))?;
    let folded = words(alloc, MatchKind::Contains, "/NS/", true)?;
    push(&mut leaves, PrincipalLeaf::Authenticated(Some(folded)))?;
    push(
        &mut leaves,
        PrincipalLeaf::DirectRemoteIp(block("0.0.0.0/0")?),
    )?;
    push(
        &mut leaves,
        PrincipalLeaf::RemoteIp(block("::ffff:129.144.52.38/96")?),
    )?;
    push(
        &mut leaves,
        PrincipalLeaf::Header(is_there(alloc, "cookie")?),
    )?;
    let note = is_exactly(alloc, "x-note", "a\"b\\c/\n\t\u{1}é", false)?;
    push(&mut leaves, PrincipalLeaf::Header(note))?;
    Ok(leaves)
}

fn of_claims(alloc: Global) -> Result<List<Tree<PrincipalLeaf>>, Stop> {
    let mut leaves = List::new(alloc);
    push(&mut leaves, claim(alloc, "iss", ValueMatcher::Present)?)?;
    let subject = words(alloc, MatchKind::Exact, "ann", false)?;
    push(
        &mut leaves,
        claim(alloc, "sub", ValueMatcher::Words(subject))?,
    )?;
    push(
        &mut leaves,
        claim(alloc, "aud", ValueMatcher::OneOfPresent)?,
    )?;
    let role = words(alloc, MatchKind::Prefix, "admin", true)?;
    push(&mut leaves, role_claim(alloc, ValueMatcher::OneOf(role))?)?;
    let other = Tree::leaf(claim(alloc, "azp", ValueMatcher::Present)?);
    leaves.push(Tree::not(alloc, other)?)?;
    Ok(leaves)
}

fn claim(alloc: Global, key: &str, value: ValueMatcher) -> Result<PrincipalLeaf, Memory> {
    let mut path = List::new(alloc);
    path.push(Text::of(alloc, key)?)?;
    Ok(PrincipalLeaf::Metadata { path, value })
}

// Of a claim inside an object.
fn role_claim(alloc: Global, value: ValueMatcher) -> Result<PrincipalLeaf, Memory> {
    let mut path = List::new(alloc);
    path.push(Text::of(alloc, "realm")?)?;
    path.push(Text::of(alloc, "roles")?)?;
    Ok(PrincipalLeaf::Metadata { path, value })
}
