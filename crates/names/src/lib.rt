//! The name of a topic is `persistent://` and three parts joined by `/`; a part is 1 to 255 letters and digits of ASCII, `-`, `_`
//! and `.`. Bytes are read as a name exactly where they are one, and want of memory is the only other refusal. A value of
//! `TopicName` is such a name and nothing else.
#![tactic(auto)]

mod law;
mod part;
mod topic_name;

pub use law::topic_names_are_three_parts;
pub use part::is_name_part;
pub use topic_name::{NameFault, TopicName, is_topic_name};
