ghost use Rattle.std.specs.Prelude.{◌≡◌};
ghost use Rattle.session.specs.Broker.{Broker};
ghost use Rattle.session.specs.Client.{Client, play, Speaks};
ghost use Rattle.session.specs.Lookup.{LookupStep, PartitionsStep};

use crate::fault::Fault;
use crate::port::Port;
use crate::session::Session;
use commands::{LookupTopic, PartitionedTopicMetadata, Reply, ReplyText, ServerError};
use names::is_topic_name;

impl Session {
    /// Works LOOKUP ("PulsarApi.proto, CommandLookupTopic"). This broker serves each topic itself, and none is made.
    pub(crate) fn look_up<P: Port>(&mut self, asked: &LookupTopic, port: &P, out: &mut Vec<u8>)
        ensures step { P.sole port.now → LookupStep (play self.old (P.broker port.now) out.old.items) asked.now
            (play self.new (P.broker port.now) out.new.items) }
        ensures speaks { Speaks self.old out.old.items self.new out.new.items }
    {
        let request_id = asked.request_id;
        if !is_topic_name(asked.topic.as_str().as_bytes()) {
            let service_url = Err(ServerError::InvalidTopicName);
            let reply = Reply::LookupResponse {
                request_id,
                service_url,
            };
            self.say(&reply, out);
            drop(reply);
            return;
        }
        match String::from_str(self.alloc, port.service_url()) {
            Ok(url) => {
                let service_url = Ok(ReplyText::new(url));
                let reply = Reply::LookupResponse {
                    request_id,
                    service_url,
                };
                self.say(&reply, out);
                drop(reply);
            }
            Err(_) => self.end_by(Fault::NoMemory),
        }
    }

    /// Works PARTITIONED_METADATA ("PulsarApi.proto, CommandPartitionedTopicMetadata"). No topic is partitioned, and none is
    /// made.
    pub(crate) fn tell_partitions(&mut self, asked: &PartitionedTopicMetadata, out: &mut Vec<u8>)
        ensures step { (broker : Broker) → PartitionsStep (play self.old broker out.old.items) asked.now (play self.new broker out.new.items) }
        ensures speaks { Speaks self.old out.old.items self.new out.new.items }
    {
        let request_id = asked.request_id;
        let error = if is_topic_name(asked.topic.as_str().as_bytes()) {
            None
        } else {
            Some(ServerError::InvalidTopicName)
        };
        let reply = Reply::PartitionedMetadataResponse { request_id, error };
        self.say(&reply, out);
        drop(reply);
    }
}
