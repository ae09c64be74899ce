// What others found out of a connection: valid tokens, and answers of authorizers.
use mesh_text::{List, Text};

/// A token that is valid for a rule's issuer, audiences and keys, with its claims. A question that a case doesn't list
/// is one of an invalid token.
#[derive(Debug, Drop, PartialEq, Eq)]
pub struct TokenVerdict {
    pub token: Text,
    pub issuer: Text,
    /// The audiences of the rule, in its order.
    pub audiences: List<Text>,
    /// The key set of the rule, or where it is fetched from.
    pub keys: Text,
    /// The payload (RFC 7519, section 4).
    pub claims: List<ClaimField>,
}

/// A claim by its name. Of two of one object with one name the first counts.
#[cycle(claim)]
#[derive(Debug, Drop, PartialEq, Eq, Hash)]
pub struct ClaimField {
    pub key: Text,
    pub value: Claim,
}

/// A claim's value (RFC 7519, section 2): of the kinds of JSON values those that policies can test.
#[cycle(claim)]
#[derive(Debug, Drop, PartialEq, Eq, Hash)]
pub enum Claim {
    Word(Text),
    Words(List<Text>),
    Object(List<ClaimField>),
}

/// What an external authorizer answers.
#[derive(Debug, Drop, PartialEq, Eq)]
pub struct Answer {
    /// The name of the authorizer's cluster, as `cluster_of` gives it.
    pub cluster: Text,
    pub allow: bool,
}
