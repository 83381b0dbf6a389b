//! Which forecasts are kept.

use forecast_query::{Forecasts, no_info};
use hermes_horizontal::Info;
use line_base::Text;
use std::alloc::Global;
use std::io;
use std::io::Write;

/// Appends how many forecasts are kept of so many, and the products of the first and the last of them.
pub fn tell(alloc: Global, case: &str, to: &mut Vec<u8>) -> io::Result<()> {
    let mut forecasts = Forecasts::new(alloc);
    add_all(alloc, case, &mut forecasts);
    tell_list(&forecasts, to)
}

/// Adds as many as each word says; `clear` forgets them.
fn add_all(alloc: Global, case: &str, forecasts: &mut Forecasts) {
    let mut product = 0u64;
    for word in case.split_whitespace() {
        if word == "clear" {
            forecasts.clear();
        } else if let Ok(count) = word.parse::<u16>() {
            for _ in 0..count {
                product = product.wrapping_add(1);
                add(alloc, product, forecasts);
            }
        }
    }
}

fn add(alloc: Global, product: u64, forecasts: &mut Forecasts) {
    if let Some(info) = info_of_product(alloc, product) {
        let _ = forecasts.add(info);
    }
}

fn info_of_product(alloc: Global, product: u64) -> Option<Info> {
    let mut info = no_info();
    match Text::number(alloc, product) {
        Ok(text) => {
            info.product = Some(text);
            Some(info)
        }
        Err(_) => None,
    }
}

fn tell_list(forecasts: &Forecasts, to: &mut Vec<u8>) -> io::Result<()> {
    let list = forecasts.list();
    let count = list.len();
    write!(to, "{count}")?;
    if let [first, ..] = list {
        tell_product(first, to)?;
    }
    if let [.., last] = list {
        tell_product(last, to)?;
    }
    Ok(())
}

fn tell_product(info: &Info, to: &mut Vec<u8>) -> io::Result<()> {
    to.write_all(b" ")?;
    match &info.product {
        Some(product) => to.write_all(product.bytes()),
        None => to.write_all(b"-"),
    }
}
