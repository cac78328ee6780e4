//! An object's program, loaded with its maps.
ghost use Rattle.std.specs.Prelude.{◌≡◌, ◌≤◌, ◌↔◌, ◌++◌, [], ◌∷◌, List, Some, None, IfErr, IfOk, OnErr, OnOk, IsTrue, take, length};
ghost use Rattle.std.specs.List.{All};
ghost use Rattle.host_core.specs.declared.reply.Reply.{Reply as KnownReply};
ghost use Rattle.host_core.specs.declared.reply.Reply.TheVariants.{Refused};
ghost use Rattle.host_handle.specs.Loading.{HappenUpTo, HappenWith, HasAnyMap, HasRightLengths, LoadsObject, RefusesLoading, RefusesNothing, events_of_map, events_of_maps, events_of_object, drops_of};

use crate::object::{BpfHostObject, BpfHostObjectMap};
use host_core::{Event, Host, Reply};
use host_types::limits::MAX_MAPS;
use host_types::{Fault, MapNo};

/// Loads an object for a tenant of a host: the last reply, or what the call returns where nothing happens.
pub fn load_object(
    host: &mut Host,
    tenant: u32,
    object: &BpfHostObject,
    mergeable: bool,
) -> Result<Reply, u32>
    ensures right { OnOk result (HasRightLengths object.now) }
    ensures none { OnOk result (¬ (HasAnyMap tenant host.old)) }
    ensures loads { IfOk result (λ last. LoadsObject tenant mergeable object.now last host.old host.new) }
    ensures refused { IfErr result (RefusesLoading tenant object.now host.old) }
    ensures unchanged { OnErr result (host.new ≡ host.old) }
{
    if !object.has_right_lengths() {
        return Err(102);
    }
    if has_map(host, tenant) {
        return Err(104);
    }
    match load_whole(host, tenant, object, mergeable) {
        Ok(last) => Ok(last),
        Err(fault) => {
            drop_maps(host, tenant);
            Ok(Reply::Refused(fault))
        }
    }
}

/// Makes an object's maps and loads its program: the reply to that, or what refuses one of these events.
fn load_whole(
    host: &mut Host,
    tenant: u32,
    object: &BpfHostObject,
    mergeable: bool,
) -> Result<Reply, Fault>
    requires { HasRightLengths object.now }
    ensures accepted { IfOk result RefusesNothing }
    ensures loaded { IfOk result (λ last. (replies : List KnownReply) × All RefusesNothing replies
        × HappenWith (events_of_object tenant mergeable object.now) (replies ++ last ∷ []) host.old host.new) }
    ensures stopped { IfErr result (λ fault. HappenUpTo (events_of_object tenant mergeable object.now) (Some fault) host.old host.new) }
{
    make_maps(
        host,
        tenant,
        &object.maps[..object.maps_len as usize],
        mergeable,
    )?;
    let text = &object.text[..object.text_len as usize];
    match host.load(tenant, text, object.context_size) {
        Reply::Refused(fault) => Err(fault),
        last => Ok(last),
    }
}

/// Makes the maps of an object by number.
fn make_maps(
    host: &mut Host,
    tenant: u32,
    maps: &[BpfHostObjectMap],
    mergeable: bool,
) -> Result<(), Fault>
    requires few { length maps.now ≤ 8 }
    requires first { All (λ made. made.first_len ≤ 4096) maps.now }
    ensures made { OnOk result (HappenUpTo (events_of_maps tenant mergeable 0 maps.now) None host.old host.new) }
    ensures stopped { IfErr result (λ fault. HappenUpTo (events_of_maps tenant mergeable 0 maps.now) (Some fault) host.old host.new) }
{
    for number in 0..maps.len() {
        make_map(host, tenant, number as u32, &maps[number], mergeable)?;
    }
    Ok(())
}

/// Makes a map of an object, and writes its first value.
fn make_map(
    host: &mut Host,
    tenant: u32,
    number: MapNo,
    made: &BpfHostObjectMap,
    mergeable: bool,
) -> Result<(), Fault>
    requires { made.now.first_len ≤ 4096 }
    ensures made { OnOk result (HappenUpTo (events_of_map tenant mergeable number made.now) None host.old host.new) }
    ensures stopped { IfErr result (λ fault. HappenUpTo (events_of_map tenant mergeable number made.now) (Some fault) host.old host.new) }
{
    let create = Event::CreateMap {
        tenant,
        value_size: made.shape.value_size,
        entries: made.shape.entries,
        mergeable,
    };
    if let Reply::Refused(fault) = host.apply(&create) {
        return Err(fault);
    }
    if made.first_len == 0 {
        return Ok(());
    }
    let first = &made.first[..made.first_len as usize];
    match host.update(tenant, number, 0, first) {
        Reply::Refused(fault) => Err(fault),
        _ => Ok(()),
    }
}

/// Drops the tenant's maps.
fn drop_maps(host: &mut Host, tenant: u32)
    ensures { (replies : List KnownReply) × HappenWith (drops_of tenant 8) replies host.old host.new }
{
    for map in 0..MAX_MAPS as MapNo {
        let _reply = host.apply(&Event::DropMap { tenant, map });
    }
}

/// Whether a tenant has a map.
fn has_map(host: &Host, tenant: u32) -> bool
    ensures { IsTrue result ↔ HasAnyMap tenant host.now }
{
    for map in 0..MAX_MAPS as MapNo {
        if host.shape(tenant, map).is_some() {
            return true;
        }
    }
    false
}

impl BpfHostObject {
    ghost use Rattle.std.specs.Prelude.{◌↔◌, IsTrue};
    ghost use Rattle.host_handle.specs.Loading.{HasRightLengths};

    /// Whether its lengths are such as its arrays have.
    fn has_right_lengths(&self) -> bool
        ensures { IsTrue result ↔ HasRightLengths self.now }
    {
        if self.text_len as usize > self.text.len() || self.maps_len as usize > self.maps.len() {
            return false;
        }
        let maps = &self.maps[..self.maps_len as usize];
        maps.iter().all(|made| made.has_right_length())
    }
}

impl BpfHostObjectMap {
    ghost use Rattle.std.specs.Prelude.{◌↔◌, ◌≤◌, IsTrue};

    /// Whether its first value has no more bytes than there is room for.
    fn has_right_length(&self) -> bool
        ensures { IsTrue result ↔ (self.now.first_len ≤ 4096) }
    {
        self.first_len as usize <= self.first.len()
    }
}
