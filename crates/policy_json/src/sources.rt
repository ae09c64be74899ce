// Who a request comes from: the source of a rule.
ghost use Rattle.policy_json.specs.Sources.{source_faults, source_in};

use crate::both_listed::both_listed;
use crate::texts::ShortText;
use crate::values::{BlockValue, RequestPrincipal};
use mesh_doc::{DocError, Form, Spot};
use mesh_policy::SourceSpec;
use serde_json::Value;
use std::alloc::Global;

const PRINCIPALS: &str = "principals";

const NOT_PRINCIPALS: &str = "notPrincipals";

const REQUEST_PRINCIPALS: &str = "requestPrincipals";

const NOT_REQUEST_PRINCIPALS: &str = "notRequestPrincipals";

const NAMESPACES: &str = "namespaces";

const NOT_NAMESPACES: &str = "notNamespaces";

const IP_BLOCKS: &str = "ipBlocks";

const NOT_IP_BLOCKS: &str = "notIpBlocks";

const REMOTE_IP_BLOCKS: &str = "remoteIpBlocks";

const NOT_REMOTE_IP_BLOCKS: &str = "notRemoteIpBlocks";

/// A source: its unknown fields, and then the faults of its ten lists.
pub(crate) struct Source;

impl Form for Source {
    type Out = SourceSpec;

    ghost faults = { source_faults };

    ghost value = { source_in };

    #[tactic(auto, unfolding(crate::specs::Sources::source_faults, crate::specs::Sources::source_in))]
    fn read(alloc: Global, v: &Value, at: &Spot) -> Result<SourceSpec, DocError> {
        at.only_fields(
            alloc,
            v,
            &[
                PRINCIPALS,
                NOT_PRINCIPALS,
                REQUEST_PRINCIPALS,
                NOT_REQUEST_PRINCIPALS,
                NAMESPACES,
                NOT_NAMESPACES,
                IP_BLOCKS,
                NOT_IP_BLOCKS,
                REMOTE_IP_BLOCKS,
                NOT_REMOTE_IP_BLOCKS,
            ],
        )?;
        let principals = both_listed::<ShortText>(alloc, v, PRINCIPALS, NOT_PRINCIPALS, at)?;
        let request_principals = both_listed::<RequestPrincipal>(
            alloc,
            v,
            REQUEST_PRINCIPALS,
            NOT_REQUEST_PRINCIPALS,
            at,
        )?;
        let namespaces = both_listed::<ShortText>(alloc, v, NAMESPACES, NOT_NAMESPACES, at)?;
        let ip_blocks = both_listed::<BlockValue>(alloc, v, IP_BLOCKS, NOT_IP_BLOCKS, at)?;
        let remote_ip_blocks = both_listed::<BlockValue>(
            alloc,
            v,
            REMOTE_IP_BLOCKS,
            NOT_REMOTE_IP_BLOCKS,
            at,
        )?;
        Ok(SourceSpec {
            principals: principals.values,
            not_principals: principals.not_values,
            request_principals: request_principals.values,
            not_request_principals: request_principals.not_values,
            namespaces: namespaces.values,
            not_namespaces: namespaces.not_values,
            ip_blocks: ip_blocks.values,
            not_ip_blocks: ip_blocks.not_values,
            remote_ip_blocks: remote_ip_blocks.values,
            not_remote_ip_blocks: remote_ip_blocks.not_values,
        })
    }
}
