ghost use Rattle.session.specs.Client.{Client, Play, play, Speaks};
ghost use Rattle.session.specs.GivingBack.{CloseConsumerStep, RedeliverStep};

use crate::port::Port;
use crate::session::Session;
use crate::told::hear;
use commands::{CloseConsumer, Redeliver, ServerError};
use topic_core::TopicCommand;

impl Session {
    /// Works CLOSE_CONSUMER ("PulsarApi.proto, CommandCloseConsumer"). The id is free once the topic has detached the
    /// consumer.
    pub(crate) fn close_consumer<P: Port>(
        &mut self,
        asked: CloseConsumer,
        port: &mut P,
        out: &mut Vec<u8>,
    )
        ensures step { P.sole port.old → CloseConsumerStep (play self.old (P.broker port.old) out.old.items) asked
            (play self.new (P.broker port.new) out.new.items) }
        ensures speaks { Speaks self.old out.old.items self.new out.new.items }
        ensures passes { P.passes port.old port.new }
    {
        let Some(topic) = self.consumer_topic(asked.consumer_id, port) else {
            return self.refuse_consumer(asked.request_id, ServerError::ConsumerNotFound, out);
        };
        let command = TopicCommand::CloseConsumer(asked);
        let answer = hear(port.command(topic, self.number, command));
        self.answer(&answer, out);
        drop(answer);
    }

    /// Works REDELIVER ("PulsarApi.proto, CommandRedeliverUnacknowledgedMessages"), which has no answer.
    pub(crate) fn redeliver<P: Port>(&mut self, asked: Redeliver, port: &mut P, out: &mut Vec<u8>)
        ensures step { P.sole port.old → RedeliverStep (play self.old (P.broker port.old) out.old.items) asked
            (play self.new (P.broker port.new) out.new.items) }
        ensures speaks { Speaks self.old out.old.items self.new out.new.items }
        ensures passes { P.passes port.old port.new }
    {
        let Some(topic) = self.consumer_topic(asked.consumer_id, port) else {
            return;
        };
        let command = TopicCommand::Redeliver(asked);
        let answer = hear(port.command(topic, self.number, command));
        self.answer(&answer, out);
        drop(answer);
    }
}
