// The reasons why there is no workload, each judged by itself, and the first of them.
ghost use Rattle.std.specs.Prelude.{◌≡◌, [], ◌∷◌, Some, map};
ghost use Rattle.mesh_policy.specs.AcceptedBundle.{AcceptedBundle};
ghost use Rattle.mesh_policy.specs.Lists.{distinct_texts, first_some};
ghost use Rattle.mesh_policy.specs.SelectFault as fault;
ghost use Rattle.mesh_select.specs.SelectError.{Judges};
ghost use Rattle.mesh_select.specs.Sizes as meant;

use crate::error::SelectError;
use crate::ports::{conflict, numbers_with};
use crate::selection::Selection;
use crate::sizes::{Counts, counts_of};
use crate::texts::{distinct, distinct_list, least_within, least_without};
use crate::{headers, providers};
use mesh_policy::Protocol;
use mesh_text::Text;
use std::alloc::Global;

const MOST_PORTS: usize = 16;

const MOST_VALUES: u64 = 2048;

const MOST_ENTRIES: u64 = 1024;

const MOST_BYTES: u64 = 65536;

impl Selection<'_> {
    /// The first reason why there is no workload.
    pub(crate) fn judge(&self, alloc: Global) -> Result<(), SelectError>
        requires { AcceptedBundle self.now.bundle }
        ensures { Judges result (fault.fault_for self.now.bundle (Some self.now.pod)) }
    {
        self.judge_ports(alloc)?;
        self.judge_providers(alloc)?;
        self.judge_headers(alloc)?;
        self.judge_number()?;
        self.judge_size()
    }

    fn judge_ports(&self, alloc: Global) -> Result<(), SelectError>
        ensures { Judges result (fault.port_fault self.now.bundle self.now.pod) }
    {
        let tcp = numbers_with(alloc, &self.given, Protocol::Tcp)?;
        match conflict(&self.given, &self.http, &tcp) {
            None => Ok(()),
            Some(port) => Err(SelectError::PortConflict {
                port,
                first: Protocol::Http,
                second: Protocol::Tcp,
            }),
        }
    }

    fn judge_providers(&self, alloc: Global) -> Result<(), SelectError>
        ensures { Judges result (first_some (fault.unknown_fault self.now.bundle self.now.pod
            ∷ fault.second_fault self.now.bundle self.now.pod ∷ [])) }
    {
        let written = providers::written(alloc, &self.policies)?;
        let names = providers::known(alloc, &self.bundle.mesh.providers)?;
        let known = distinct(alloc, &names)?;
        match least_without(&written, &known) {
            None => two_of(alloc, &written),
            Some(name) => Err(SelectError::UnknownProvider(Text::of(alloc, name)?)),
        }
    }

    fn judge_headers(&self, alloc: Global) -> Result<(), SelectError>
        ensures { Judges result (fault.header_fault self.now.bundle self.now.pod) }
    {
        let tested = headers::tested(alloc, &self.policies)?;
        let names = headers::changed(alloc, &self.rules)?;
        let changed = distinct(alloc, &names)?;
        match least_within(&tested, &changed) {
            None => Ok(()),
            Some(name) => Err(SelectError::TokenHeaderTested(Text::of(alloc, name)?)),
        }
    }

    fn judge_number(&self) -> Result<(), SelectError>
        ensures { Judges result (fault.number_fault self.now.bundle self.now.pod) }
    {
        if self.listed.len() > MOST_PORTS {
            return Err(SelectError::TooManyPorts(self.listed.len() as u32));
        }
        Ok(())
    }

    fn judge_size(&self) -> Result<(), SelectError>
        requires { AcceptedBundle self.now.bundle }
        ensures { Judges result (fault.size_fault self.now.bundle self.now.pod) }
    {
        let counts = counts_of(&self.policies, &self.rules);
        if is_over_limit(counts) {
            let Counts {
                values,
                entries,
                bytes,
            } = counts;
            return Err(SelectError::TooManyValues {
                values,
                entries,
                bytes,
            });
        }
        Ok(())
    }
}

fn two_of(alloc: Global, written: &[&str]) -> Result<(), SelectError>
    ensures { Judges result (fault.two_of (distinct_texts (map (λ t. t.now) written.now))) }
{
    let names = distinct_list(alloc, written)?;
    match names.as_slice() {
        [name, other, ..] => {
            let name = Text::of(alloc, *name)?;
            let other = Text::of(alloc, *other)?;
            Err(SelectError::TwoProviders(name, other))
        }
        _ => Ok(()),
    }
}

fn is_over_limit(counts: Counts) -> bool
    ensures { result ≡ meant.is_over_limit counts }
{
    counts.values > MOST_VALUES || counts.entries > MOST_ENTRIES || counts.bytes > MOST_BYTES
}
