//! Address blocks as JSON.
ghost use Rattle.std.specs.Prelude.{◌≡◌, Some, IfOk, unwrap_or};
ghost use Rattle.std.specs.Result.{result_map_both};
ghost use Rattle.serde_json.specs.View.{view};
ghost use Rattle.mesh_doc.specs.Faults.{Reads};
ghost use Rattle.mesh_doc.specs.Kinds.{number_in, text_in};
ghost use Rattle.mesh_net.specs.Address.{ip_of};
ghost use Rattle.mesh_net.specs.Cidr.{block_with};
ghost use Rattle.envoy_types.specs.BlockForms as form;
ghost use Rattle.envoy_types.specs.BlockForms.{block_written};

use crate::fields::{Fields, number_value};
use envoy_types::keys::{ADDRESS_PREFIX, PREFIX_LEN};
use mesh_doc::{DocError, Form, Reason, Spot, written};
use mesh_net::{Cidr, IpAddr, parse_ip, write_ip};
use mesh_text::Memory;
use serde_json::Value;
use std::alloc::Global;

/// A block by the text of its address and its length (Envoy v3 API, `config.core.v3.CidrRange`).
#[tactic(auto, unfolding(envoy_types::specs::BlockForms::block_written))]
pub(crate) fn block_value(alloc: Global, block: &Cidr) -> Result<Value, Memory>
    ensures { IfOk result (λ v. view v ≡ block_written block.now) }
{
    let address = write_ip(alloc, &block.addr)?;
    let mut fields = Fields::new(alloc);
    fields.put_text(alloc, ADDRESS_PREFIX, &address)?;
    fields.put(
        alloc,
        PREFIX_LEN,
        number_value(alloc, u16::from(block.len))?,
    )?;
    Ok(fields.into_value())
}

/// A block by the text of its address and its length, which fits the address: else BadForm at either.
pub(crate) struct BlockForm;

impl Form for BlockForm {
    type Out = Cidr;

    ghost faults = { form.block_faults };

    ghost value = { form.block_in };

    #[tactic(auto, unfolding(envoy_types::specs::BlockForms::block_faults, envoy_types::specs::BlockForms::block_in, mesh_doc::specs::Fields::required_written, mesh_doc::specs::Fields::required_written_in))]
    fn read(alloc: Global, v: &Value, at: &Spot) -> Result<Cidr, DocError> {
        at.only_fields(alloc, v, &[ADDRESS_PREFIX, PREFIX_LEN])?;
        let Some(prefix) = written(v, ADDRESS_PREFIX) else {
            return Err(at.missing(alloc, ADDRESS_PREFIX));
        };
        let ip = address(alloc, prefix, &Spot::key(at, ADDRESS_PREFIX))?;
        let Some(len) = written(v, PREFIX_LEN) else {
            return Err(at.missing(alloc, PREFIX_LEN));
        };
        block_of(alloc, ip, len, &Spot::key(at, PREFIX_LEN))
    }
}

// The address that a text spells.
#[tactic(auto, unfolding(mesh_doc::specs::Tested::tested, mesh_doc::specs::Kinds::text_faults, mesh_doc::specs::Kinds::text_in))]
fn address(alloc: Global, v: &Value, at: &Spot) -> Result<IpAddr, DocError>
    ensures { Reads (result_map_both Some (λ e. e) result)
        (form.address_prefix_faults (view v.now) at.now)
        (ip_of (text_in (view v.now))) }
{
    let Value::String(text) = v else {
        return Err(at.refuse(alloc, Reason::WrongType));
    };
    match parse_ip(text.as_str()) {
        Some(ip) => Ok(ip),
        None => Err(at.refuse(alloc, Reason::BadForm)),
    }
}

// The block of this address and of the length `v`.
#[tactic(auto, unfolding(envoy_types::specs::BlockForms::prefix_len_faults, mesh_doc::specs::Kinds::number_faults, mesh_doc::specs::Kinds::number_in), using(crate::proofs::BlockLemmas::fits_where_some, crate::proofs::BlockLemmas::longer_where_none))]
fn block_of(alloc: Global, ip: IpAddr, v: &Value, at: &Spot) -> Result<Cidr, DocError>
    ensures { Reads result
        (form.prefix_len_faults (Some ip) (view v.now) at.now)
        (unwrap_or (block_with ip (number_in (view v.now))) form.any_block) }
{
    let Some(len) = v.as_u64() else {
        return Err(at.refuse(alloc, Reason::WrongType));
    };
    match block_with(ip, len) {
        Some(block) => Ok(block),
        None => Err(at.refuse(alloc, Reason::BadForm)),
    }
}

fn block_with(ip: IpAddr, len: u64) -> Option<Cidr>
    ensures { result ≡ block_with ip len }
{
    if len <= u64::from(ip.width()) {
        Cidr::new(ip, len as u16)
    } else {
        None
    }
}
