// Many calls, and a failure at each one.
mod beside_memory;
mod each_call;
