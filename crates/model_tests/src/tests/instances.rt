//! Instances made manually, built, and tested for validity.

mod coefs;
mod instance;
mod validity;
