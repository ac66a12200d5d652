//! Disks, gated files, records and stores, with stops and faults at each call, by tables worked out by hand. One of
//! the tests starts threads.
#![tactic(auto)]

#[cfg(test)]
mod area_text;
#[cfg(test)]
mod change;
#[cfg(test)]
mod disk_calls;
#[cfg(test)]
mod disk_images;
#[cfg(test)]
mod disk_play;
#[cfg(test)]
mod gates;
#[cfg(test)]
mod io_memory;
#[cfg(test)]
mod io_std;
#[cfg(test)]
mod kept;
#[cfg(test)]
mod large;
#[cfg(test)]
mod records;
#[cfg(test)]
mod store_files;
#[cfg(test)]
mod store_saves;
#[cfg(test)]
mod store_stops;
