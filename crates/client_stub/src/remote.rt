//! Remote objects.

use banded_links::Bands;
use orb_base::{Octets, Priority, PriorityModel, Text};
use std::marker::Model;

/// A remote object, as the text of a reference tells of it.
#[derive(Debug, Drop)]
pub struct Remote {
    /// The host's name or address.
    pub host: Text,
    /// The port, 0 to 65535.
    pub port: u16,
    /// The key of the object there.
    pub key: Octets,
    /// The repository id of its type; of an object URL it is empty.
    pub type_id: Text,
    /// The priority model with the server's priority, where the reference publishes one that has a reading.
    pub model: Option<(PriorityModel, Priority)>,
    /// The bands, where the reference publishes bands that have a reading and share no priority.
    pub bands: Option<Bands>,
}

impl Model for Remote {
    ghost use Rattle.client_stub.specs.Remotes as Spec;

    ghost Value = { Spec.Remote };

    ghost view = { λ r. record {
      host = r.host;
      port = r.port;
      key = r.key.items;
      type_id = r.type_id;
      model = r.model;
      bands = r.bands;
    } };
}
