mod board;
mod exchanges;
mod pages;
