// What runs of calls through the cache do, beside the same calls made straight on the device. There is no code here; the definitions are those of `cache`.
#![tactic(auto)]
