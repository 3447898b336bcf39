//! The application information of a Commissioning.

ghost use Rattle.std.specs.Prelude.{◌≡◌, ◌+◌, ◌<◌, ◌≤◌, ◌^◌, length, IfSome, OnOk};
ghost use Rattle.gp_base.specs.Field.{part, Adds, octet_at, size_if, value_if};
ghost use Rattle.gp_base.specs.Walk.{Takes, TakesTo, IsWithin};
ghost use Rattle.gp_commands.specs.Inside.{application_octets};
ghost use Rattle.gp_commands.specs.Application as words;
ghost use Rattle.gp_commands.specs.Application.{application_end, application_at};
ghost use Rattle.gp_commands.specs.Commissioning as flags;

use crate::command::Commissioning;
use gp_base::field::{
    NoRoom, Short, add_counted_if, add_number16_if, add_octet_if, add_octets_if, counted_if,
    is_set, number16_if, octet_if, octet_or_zero, octets,
};
use gp_base::{Octets, Reader};

/// What a device says of the application that it has.
#[derive(Debug, Drop)]
pub(crate) struct Application {
    /// The octet of its flags.
    pub information: Option<u8>,
    pub manufacturer: Option<u16>,
    pub model: Option<u16>,
    /// The commands, without their count.
    pub commands: Option<Octets>,
    /// The clusters, with their first octet, which has the counts.
    pub clusters: Option<Octets>,
}

/// How many octets clusters have after their first one: two for each server cluster, which its bits 0 to 3
/// count, and two for each client cluster, which its bits 4 to 7 count.
pub(crate) fn clusters_size(counts: u8) -> usize
    ensures { result ≡ words.clusters_size counts }
{
    2 * ((counts % 16) as usize + (counts / 16) as usize)
}

/// Takes clusters, whose first octet says how many octets follow.
fn clusters_if(reader: &mut Reader, there: bool) -> Result<Option<Octets>, Short>
    requires within { IsWithin reader.old }
    requires room { length reader.old.octets ≤ 127 }
    ensures { Takes (size_if there (1 + words.clusters_size (octet_at reader.old.octets reader.old.place)))
        (value_if there (part reader.old.octets reader.old.place (1 + words.clusters_size (octet_at reader.old.octets reader.old.place))))
        reader.old reader.new result }
{
    if !there {
        return Ok(None);
    }
    let Some(counts) = reader.peek() else {
        return Err(Short);
    };
    Ok(Some(octets(reader, 1 + clusters_size(counts))?))
}

/// Takes the application information, which is there by bit 2 of a Commissioning's options.
#[tactic(auto, unfolding(crate::specs::Application::application_end, crate::specs::Application::application_at))]
pub(crate) fn take_application(reader: &mut Reader, options: u8) -> Result<Application, Short>
    requires within { IsWithin reader.old }
    requires room { length reader.old.octets ≤ 127 }
    ensures { TakesTo (application_end options reader.old.octets reader.old.place)
        (application_at options reader.old.octets reader.old.place) reader.old reader.new result }
{
    let information = octet_if(reader, is_set(options, 4))?;
    let flags = information.unwrap_or(0);
    let manufacturer = number16_if(reader, is_set(flags, 1))?;
    let model = number16_if(reader, is_set(flags, 2))?;
    let commands = counted_if(reader, is_set(flags, 4))?;
    let clusters = clusters_if(reader, is_set(flags, 8))?;
    Ok(Application {
        information,
        manufacturer,
        model,
        commands,
        clusters,
    })
}

/// Whether the application information and its fields are there where their flags say so.
pub(crate) fn application_agrees(command: &Commissioning) -> bool
    ensures { result ≡ flags.application_agrees command.now }
{
    let flags = command.application.unwrap_or(0);
    command.application.is_some() == is_set(command.options, 4)
        && command.manufacturer.is_some() == is_set(flags, 1)
        && command.model.is_some() == is_set(flags, 2)
        && command.commands.is_some() == is_set(flags, 4)
        && command.clusters.is_some() == is_set(flags, 8)
        && clusters_agree(&command.clusters)
}

/// Whether clusters are as many as their first octet says.
fn clusters_agree(clusters: &Option<Octets>) -> bool
    ensures { result ≡ words.clusters_agree clusters.now }
{
    match clusters {
        Some(clusters) => {
            let clusters = clusters.as_slice();
            let counts = octet_or_zero(clusters, 0);
            clusters.len() == 1 + clusters_size(counts)
        }
        None => true,
    }
}

/// Adds the application information.
#[tactic(auto, unfolding(crate::specs::Inside::application_octets))]
pub(crate) fn add_application(out: &mut Octets, command: &Commissioning) -> Result<(), NoRoom>
    ensures added { Adds (application_octets command.now) out.old out.new result }
    ensures manufacturer { OnOk result (IfSome command.now.manufacturer (λ n. n < 2 ^ 16)) }
    ensures model { OnOk result (IfSome command.now.model (λ n. n < 2 ^ 16)) }
{
    add_octet_if(out, command.application)?;
    add_number16_if(out, command.manufacturer)?;
    add_number16_if(out, command.model)?;
    add_counted_if(out, &command.commands)?;
    add_octets_if(out, &command.clusters)
}
