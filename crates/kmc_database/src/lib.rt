//! Databases of counted words in KMC 1's sorted form: two files, a prefix file with a table and a header, and a suffix file with a row for
//! each word. It stands on kmc_sum, which reads dumps, on kmc_device for files and on kmc_options for how a program ends. The layer above
//! makes them of a dump by [`pack`] or, with the exit status of a program, by [`pack_reader`], reads the header of a database by
//! [`read_header`], reads a database as its dump by a [`DatabaseReader`], and learns from `laws` that the two files tell their words and
//! counts.
#![tactic(auto)]

mod byte_buffer;
mod checking;
mod digits;
mod dump_source;
mod error;
mod form;
mod header;
mod held;
mod held_line;
mod last_header;
pub mod laws;
mod layout;
mod line_buffer;
mod look_up_error;
mod looking_up;
mod markers;
mod message;
mod next_bytes;
mod next_parts;
mod number;
mod open_error;
mod opening;
mod packing;
mod places;
mod progress;
mod query_telling;
mod querying;
mod reader;
mod reading;
mod room_parts;
mod row;
mod row_places;
mod row_reading;
mod search_error;
mod search_message;
mod searching;
mod sought;
mod source_joins;
mod stepping;
mod strands;
mod table;
mod taking;
mod telling;
mod unpack_error;
mod unpack_message;
mod unpack_telling;
mod unpacking;

pub use byte_buffer::ByteBuffer;
pub use dump_source::DumpSource;
pub use error::PackError;
pub use form::{Form, PackOptions};
pub use header::header_bytes;
pub use held::Held;
pub use last_header::database_header;
pub use layout::{Layout, MOST_PREFIX, counter_bytes, layout_for, usual_prefix};
pub use look_up_error::LookUpError;
pub use looking_up::look_up;
pub use message::PackMessage;
pub use open_error::OpenError;
pub use opening::{OpenDatabase, open_database};
pub use packing::pack;
pub use places::Places;
pub use query_telling::query_places;
pub use querying::query_database;
pub use reader::DatabaseReader;
pub use reading::{FormFault, Header, read_header};
pub use room_parts::put_part;
pub use row::holds_count;
pub use search_error::SearchError;
pub use search_message::SearchMessage;
pub use searching::query_opened;
pub use sought::Sought;
pub use source_joins::{histogram_source, join_sources, table_sources};
pub use strands::{StrandsError, StrandsMessage, judge_strands};
pub use telling::{PackNames, pack_reader};
pub use unpack_error::UnpackError;
pub use unpack_message::UnpackMessage;
pub use unpack_telling::unpack_readers;
pub use unpacking::unpack;
