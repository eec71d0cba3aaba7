// Streams, and words.
mod parsed;
mod streams;
