//! Why a value is refused.
ghost use Rattle.std.specs.Prelude.{◌≡◌};
ghost use Rattle.mesh_doc.specs.Reason.{name_of};

/// Why a value is refused.
#[derive(Clone, Copy, Debug, PartialEq, Eq)]
pub enum Reason {
    /// A document that is no object, or `items` that are no list.
    NotAList,
    /// An item of a known group whose kind is not read.
    WrongKind,
    /// A field, or an alternative, that the form does not have.
    UnknownField,
    /// A value of another kind of JSON than the form asks.
    WrongType,
    /// A field that the form requires and that is not there.
    MissingField,
    /// A text that is no name of the form.
    BadName,
    /// A text that is no time.
    BadTime,
    /// An item, or a name, that stands in an earlier entry too.
    DuplicateItem,
    /// A text that is none of the words of the form.
    BadEnum,
    /// A text of no allowed length, or forms that exclude each other.
    BadValue,
    /// A number, or its text, that is no port from 1 to 65,535.
    BadPort,
    /// A text that is no address with an optional length of a prefix.
    BadCidr,
    /// A condition's key that the form does not have.
    BadKey,
    /// A condition without values.
    EmptyCondition,
    /// A path with an operator that is no template.
    BadTemplate,
    /// A request principal with more than 8 slashes.
    TooManySlashes,
    /// A provider without the action CUSTOM, or that action without a provider.
    ProviderRule,
    /// A policy that names its targets by reference.
    TargetRefs,
    /// A policy in dry run.
    DryRun,
    /// A JWT rule with no source of keys, or two.
    JwtKeys,
    /// A list over its limit.
    TooMany,
    /// A text that is no well-formed name of a peer.
    BadPeer,
    /// A request path that does not begin with a slash.
    BadPath,
    /// A text that is no IP address.
    BadAddress,
    /// A verdict that is none, or that answers a question again.
    BadVerdict,
    /// A value of a listener off its form.
    BadForm,
    /// A filter chain that matches what an earlier one matches.
    DuplicateMatch,
}

impl Reason {
    /// The name of the variant, as refusals print it.
    pub fn name(&self) -> &'static str
        ensures { result.now ≡ name_of self.now }
    {
        match self {
            Reason::NotAList => "NotAList",
            Reason::WrongKind => "WrongKind",
            Reason::UnknownField => "UnknownField",
            Reason::WrongType => "WrongType",
            Reason::MissingField => "MissingField",
            Reason::BadName => "BadName",
            Reason::BadTime => "BadTime",
            Reason::DuplicateItem => "DuplicateItem",
            Reason::BadEnum => "BadEnum",
            Reason::BadValue => "BadValue",
            Reason::BadPort => "BadPort",
            Reason::BadCidr => "BadCidr",
            Reason::BadKey => "BadKey",
            Reason::EmptyCondition => "EmptyCondition",
            Reason::BadTemplate => "BadTemplate",
            Reason::TooManySlashes => "TooManySlashes",
            Reason::ProviderRule => "ProviderRule",
            Reason::TargetRefs => "TargetRefs",
            Reason::DryRun => "DryRun",
            Reason::JwtKeys => "JwtKeys",
            Reason::TooMany => "TooMany",
            Reason::BadPeer => "BadPeer",
            Reason::BadPath => "BadPath",
            Reason::BadAddress => "BadAddress",
            Reason::BadVerdict => "BadVerdict",
            Reason::BadForm => "BadForm",
            Reason::DuplicateMatch => "DuplicateMatch",
        }
    }
}
