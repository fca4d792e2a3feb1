//! Receivers: what one means, and four of them.
//!
//! A receiver reads a number or none for each setting, and takes some numbers, each as the number that it
//! keeps. Whatever uses receivers is proved over that meaning and its laws, once. The table and the raster
//! receiver keep numbers; the converter and the fence are layers over any receiver, in piles of any height.
#![tactic(auto)]

mod blocks;
mod converter;
mod fence;
mod plan;
mod raster;
mod receiver;
mod refusals;
mod rejections;
mod table;

pub use converter::Converter;
pub use fence::Fence;
pub use raster::RasterReceiver;
pub use receiver::Receiver;
pub use refusals::Refusal;
pub use rejections::Rejection;
pub use table::{Coverage, TableReceiver};
