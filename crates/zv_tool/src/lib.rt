//! The program without its `main`: what the words of a command line ask for, and the top call.
#![tactic(auto)]

mod form;
mod program;
mod words;

pub use program::run;
pub use words::Words;
pub use zv_command::{MAX_INPUT, Status};
pub use zv_devices::{
    CountSink, Failed, MemSink, MemSource, Sink, Source, StdSink, StdSource, SteadySource,
};
pub use zv_edit::{Edit, Look, edit2d, laws, look2d, serve};
pub use zv_frozen::{Ask, Freeze, FreezeError, Frozen, FrozenError, PairKey, Thaw, freeze};
pub use zv_input::{Command, Commands, CommandsError, KeyText, MAX_COMMANDS, ValueBytes};
pub use zv_layers::{Layers, overlay_counted, overlay_maps};
pub use zv_locale::{Asks, Provided, Wanted, provide, provide_counted};
pub use zv_map2d::{EditError, ImageMap, parse_image};
pub use zv_props::{Props, PropsError, Step, TableSteps};
pub use zv_ule::NoMemory;
